//! A line that says how far a run has come, which is made as one piece.
ghost use Rattle.std.specs.Prelude.{◌≡◌, ◌+◌, ◌≤◌, true, [], ◌∷◌, ◌++◌, length};
ghost use Rattle.std.specs.Fmt.{decimal};
ghost use Rattle.arrayvec.specs.ArrayVec.{array_vec_len};
ghost use Rattle.rescue_console.specs.Speaking.{SpeaksOn, out_pieces};
ghost use Rattle.rescue_rules.specs.Lines.{phase_front, last_front, rate_of, report_text};

use arrayvec::ArrayVec;
use itoa::Buffer;
use rescue_console::console::{Channel, Console};
use rescue_rules::report::{Report, phase_name};

/// A line.
type Line = ArrayVec<u8, 512>;

/// Adds a text for which there is room.
fn add(line: &mut Line, text: &str)
    requires { array_vec_len line.old + length text.now ≤ 512 }
    ensures { line.new.items ≡ line.old.items ++ text.now }
{
    let _fits = line.try_extend_from_slice(text.as_bytes());
}

/// Adds a text and a number after it, which has up to 40 digits.
fn add_number(line: &mut Line, text: &str, n: u64)
    requires { array_vec_len line.old + length text.now ≤ 472 }
    ensures text { line.new.items ≡ line.old.items ++ text.now ++ decimal n }
    ensures len { array_vec_len line.new ≤ array_vec_len line.old + length text.now + 40 }
{
    add(line, text);
    add(line, Buffer::new().format(n));
}

/// Adds how many bytes a second are written, if `written` bytes take `taken` milliseconds.
fn add_rate(line: &mut Line, written: u64, taken: u64)
    requires { array_vec_len line.old ≤ 472 }
    ensures text { line.new.items ≡ line.old.items ++ decimal (rate_of written taken) }
    ensures len { array_vec_len line.new ≤ array_vec_len line.old + 40 }
{
    let rate = if taken == 0 {
        0
    } else {
        u128::from(written) * 1000 / u128::from(taken)
    };
    add(line, Buffer::new().format(rate));
}

/// Adds what a line tells.
fn add_report(line: &mut Line, report: &Report)
    requires { array_vec_len line.old ≤ 66 }
    ensures { line.new.items ≡ report_text line.old.items report.now }
{
    add_number(line, ": position ", report.shown.pos);
    add_number(line, ", rescued ", report.counts.rescued);
    add_number(line, " B, failed ", report.counts.failed.bytes);
    add_number(line, " B in ", report.counts.failed.areas);
    add_number(line, " areas, ", report.errors);
    add_number(line, " read errors, ", report.taken / 1000);
    add(line, " s, ");
    add_rate(line, report.written, report.taken);
    add(line, " B/s\n");
}

/// The line after an event.
fn phase_line(report: &Report) -> Line
    ensures { result.items ≡ report_text (phase_front report.now.shown) report.now }
{
    let mut line = Line::new();
    add(&mut line, phase_name(report.shown.current));
    add_number(&mut line, " pass ", u64::from(report.shown.pass));
    add_report(&mut line, report);
    line
}

/// The last line of a run.
fn last_line(done: bool, report: &Report) -> Line
    ensures { result.items ≡ report_text (last_front done) report.now }
{
    let mut line = Line::new();
    add(&mut line, if done { "finished" } else { "stopped" });
    add_report(&mut line, report);
    line
}

/// Puts a line on standard output, by one put. Says whether it was put.
fn say<C: Console>(console: &mut C, line: &Line) -> bool
    ensures { SpeaksOn (out_pieces (line.now.items ∷ [])) true result (C.state console.old) (C.state console.new) }
{
    console.put(Channel::Out, line).is_ok()
}

/// Says the line after an event of a run that is heard so far or not. Says whether it is heard still.
// A line is due once in a second at most, so its text is no part of a turn's code.
#[cold]
#[inline(never)]
pub(crate) fn say_phase<C: Console>(console: &mut C, heard: bool, report: &Report) -> bool
    ensures { SpeaksOn (out_pieces (report_text (phase_front report.now.shown) report.now ∷ [])) heard result
        (C.state console.old) (C.state console.new) }
{
    heard && say(console, &phase_line(report))
}

/// Says the last line of a run that is heard so far or not. Says whether it is heard still.
pub(crate) fn say_last<C: Console>(
    console: &mut C,
    heard: bool,
    done: bool,
    report: &Report,
) -> bool
    ensures { SpeaksOn (out_pieces (report_text (last_front done) report.now ∷ [])) heard result
        (C.state console.old) (C.state console.new) }
{
    heard && say(console, &last_line(done, report))
}
