//! The lines of a rescue, as they are read.
ghost use Rattle.std.specs.Prelude.{◌≡◌, ℕ, ◌<◌, ◌^◌, ◌++◌, List, Some, IfSome, slice_index_or};
ghost use Rattle.rescue_rules.specs.declared.report.Report.{Report};
ghost use Rattle.rescue_rules.specs.Lines.{last_front, report_text};
ghost use Rattle.rescue_lines.specs.Lines.{IsHead, IsReport, StripsHead, figures_line, figures_of, head_text, opening_front, start_by, start_of, start_with};

use crate::cursor::Cursor;
use block_list::areas::Count;
use mapfile_text::state::Current;
use rescue_rules::report::phase_name;

/// What a line of a rescue begins with.
#[derive(Clone, Copy, Debug, PartialEq, Eq)]
pub enum Head {
    /// The line came after an event of this phase and pass.
    Phase { current: Current, pass: u64 },
    /// The run is over; `done` says whether it is done.
    Last { done: bool },
}

/// How a line of a rescue begins, by its first bytes.
#[derive(Clone, Copy)]
enum Start {
    InPhase(Current),
    Over(bool),
}

/// What a line of a rescue says.
#[derive(Clone, Copy, Debug, PartialEq, Eq)]
pub struct Figures {
    pub head: Head,
    /// Where a mapfile would show that the run is.
    pub position: u64,
    /// In bytes.
    pub rescued: u64,
    pub failed: Count,
    /// How many reads failed.
    pub errors: u64,
    /// How long the run has taken.
    pub seconds: u64,
    /// How many bytes a second the run has written.
    pub rate: u128,
}

/// A byte of a line, or 0 if the line is shorter.
fn byte_at(line: &[u8], at: usize) -> u8
    ensures { result ≡ slice_index_or line.now at 0 }
{
    if at < line.len() { line[at] } else { 0 }
}

/// How a line begins, if it is one of a rescue.
fn start_by(first: u8, third: u8, ninth: u8) -> Start
    ensures { result ≡ start_by first third ninth }
{
    match (first, third, ninth) {
        (b'c', _, _) => Start::InPhase(Current::Copying),
        (b't', _, _) => Start::InPhase(Current::Trimming),
        (b'r', _, _) => Start::InPhase(Current::Retrying),
        (b'g', _, _) => Start::InPhase(Current::Generating),
        (_, b'r', _) => Start::InPhase(Current::Scraping),
        (_, b'o', _) => Start::Over(false),
        (_, b'l', _) => Start::InPhase(Current::Filling),
        (_, _, b' ') => Start::InPhase(Current::Finished),
        _ => Start::Over(true),
    }
}

/// How the last line of a run begins.
pub fn name_of_end(done: bool) -> &'static str
    ensures { result.now ≡ last_front done }
{
    if done { "finished" } else { "stopped" }
}

/// Reads the head of a line of a phase, and the front of its first figure.
fn read_phase(cursor: &mut Cursor<'_>, current: Current) -> Head
    ensures { StripsHead (λ h. IsHead h × (start_with h ≡ Start.InPhase current)) result cursor.old cursor.new }
{
    cursor.read(phase_name(current));
    cursor.read(" pass ");
    let pass = cursor.read_number(": position ");
    Head::Phase { current, pass }
}

/// Reads the head of the last line of a run, and the front of its first figure.
fn read_last(cursor: &mut Cursor<'_>, done: bool) -> Head
    ensures { StripsHead (λ h. start_with h ≡ Start.Over done) result cursor.old cursor.new }
{
    cursor.read(name_of_end(done));
    cursor.read(": position ");
    Head::Last { done }
}

/// Reads the head of a line, and the front of its first figure.
fn read_head(cursor: &mut Cursor<'_>, line: &[u8]) -> Head
    ensures { StripsHead (λ h. IsHead h × (start_with h ≡ start_of line.now)) result cursor.old cursor.new }
{
    match start_by(byte_at(line, 0), byte_at(line, 2), byte_at(line, 8)) {
        Start::InPhase(current) => read_phase(cursor, current),
        Start::Over(done) => read_last(cursor, done),
    }
}

/// What a line of a rescue says; none if it is another line. The line ends with its newline.
pub fn read_line(line: &[u8]) -> Option<Figures>
    // What it says prints to this line, and to no other;
    ensures printed { IfSome result (λ f. line.now ≡ figures_line f) }

    // and each line that a rescue prints says what it was printed of.
    ensures read { (head : Head) (r : Report) → IsHead head → IsReport r → line.now ≡ report_text (head_text head) r
        → result ≡ Some (figures_of head r) }
{
    let mut cursor = Cursor::new(line);
    let head = read_head(&mut cursor, line);
    let position = cursor.read_number(", rescued ");
    let rescued = cursor.read_number(" B, failed ");
    let bytes = cursor.read_number(" B in ");
    let areas = cursor.read_number(" areas, ");
    let errors = cursor.read_number(" read errors, ");
    let seconds = cursor.read_number(" s, ");
    let rate = cursor.read_wide(" B/s\n");
    if !cursor.is_at_end() {
        return None;
    }
    Some(Figures {
        head,
        position,
        rescued,
        failed: Count { bytes, areas },
        errors,
        seconds,
        rate,
    })
}

/// The size of the domain, if a line begins with it, as that which a rescue puts before its other lines does.
pub fn read_opening(line: &[u8]) -> Option<u64>
    ensures printed { IfSome result (λ n. (rest : List ℕ) × (line.now ≡ opening_front n ++ rest)) }
    ensures read { (n : ℕ) (rest : List ℕ) → n < 2 ^ 64 → line.now ≡ opening_front n ++ rest → result ≡ Some n }
{
    let mut cursor = Cursor::new(line);
    cursor.read("domain of ");
    let size = cursor.read_number(" B from ");
    if cursor.is_lost() {
        return None;
    }
    Some(size)
}
