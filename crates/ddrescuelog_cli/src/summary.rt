//! The text of a summary: what the mapfile shows, the size of what is examined, and a line for each status.
ghost use Rattle.std.specs.Prelude.{◌≡◌, ◌+◌, ◌≤◌, ◌++◌, []};
ghost use Rattle.arrayvec.specs.ArrayVec.{array_vec_len};
ghost use Rattle.ddrescuelog_cli.specs.Results.{status_name, count_line, domain_line, shown_line, summary_text};

use crate::pieces::Buffer;
use block_list::areas::Count;
use block_list::status::Status;
use console_texts::message::{Message, add, add_number};
use map_counts::summary::Summary;
use mapfile_text::state::MapState;

/// How a status is called.
fn name_of(status: Status) -> &'static str
    ensures { result.now ≡ status_name status }
{
    match status {
        Status::NonTried => "non-tried",
        Status::NonTrimmed => "non-trimmed",
        Status::NonScraped => "non-scraped",
        Status::BadSector => "bad-sector",
        Status::Finished => "finished",
    }
}

/// The line on what the mapfile shows.
fn make_shown_line(state: MapState) -> Message
    ensures { result.items ≡ shown_line state }
{
    let mut line = Message::new();
    add_number(&mut line, "position ", state.pos as usize, ", status ");
    line.push(state.current.symbol());
    add_number(&mut line, ", pass ", state.pass as usize, "\n");
    line
}

/// The line on how much is examined.
fn make_domain_line(size: u64) -> Message
    ensures { result.items ≡ domain_line size }
{
    let mut line = Message::new();
    add_number(&mut line, "domain ", size as usize, " B\n");
    line
}

/// The line of a status.
fn make_count_line(status: Status, count: Count) -> Message
    ensures { result.items ≡ count_line status count }
{
    let mut line = Message::new();
    add(&mut line, name_of(status));
    add_number(&mut line, " ", count.bytes as usize, " B in ");
    add_number(&mut line, "", count.areas as usize, " areas\n");
    line
}

/// Adds a line to a text that is short.
fn add_short(text: &mut Buffer, line: &Message)
    requires { array_vec_len text.old ≤ 3968 }
    ensures text { text.new.items ≡ text.old.items ++ line.now.items }
    ensures len { array_vec_len text.new ≤ array_vec_len text.old + 128 }
{
    let _fits = text.try_extend_from_slice(line.as_slice());
}

/// The whole text of a summary, which is short.
pub(crate) fn make_summary(state: MapState, summary: &Summary) -> Buffer
    ensures { result.items ≡ summary_text state summary.now }
{
    let lines = &summary.lines;
    let mut text = Buffer::new();
    add_short(&mut text, &make_shown_line(state));
    add_short(&mut text, &make_domain_line(summary.domain));
    add_short(&mut text, &make_count_line(Status::NonTried, lines[0]));
    add_short(&mut text, &make_count_line(Status::NonTrimmed, lines[1]));
    add_short(&mut text, &make_count_line(Status::NonScraped, lines[2]));
    add_short(&mut text, &make_count_line(Status::BadSector, lines[3]));
    add_short(&mut text, &make_count_line(Status::Finished, lines[4]));
    text
}
