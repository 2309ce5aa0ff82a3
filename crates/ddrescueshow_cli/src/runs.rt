//! Runs of equal cells in a row.
ghost use Rattle.std.specs.Prelude.{◌≡◌, ◌+◌, ◌<◌, ◌≤◌, ◌++◌, ◌∷◌, List, Option, flat_map, length, IfOk, OnOk};
ghost use Rattle.block_list.specs.declared.status.Status.{Status as StatusOf};
ghost use Rattle.rescue_domain.specs.Parts.{covers};
ghost use Rattle.ddrescueshow_cli.specs.Cells.{IsFrame, cells_in};
ghost use Rattle.ddrescueshow_cli.specs.Picture.{run_text};
ghost use Rattle.ddrescueshow_cli.specs.Runs.{cell_symbol, marks_from, runs_of, runs_on, same_shown};

use crate::form::Form;
use crate::plain::add_block;
use crate::subject::Subject;
use crate::svg::add_rect;
use crate::text::add_bytes;
use block_list::status::Status;
use block_list::tiles::{NoMemory, Tiles};
use map_counts::pieces::Nearby;

/// Cells of a row that show the same, from one on.
#[derive(Clone, Copy, Debug, PartialEq, Eq)]
pub struct Run {
    pub from: u64,
    pub count: u64,
    pub shown: Option<Status>,
}

/// The character of a cell.
pub(crate) fn symbol_of(shown: Option<Status>) -> u8
    ensures { result ≡ cell_symbol shown }
{
    match shown {
        Some(status) => status.symbol(),
        None => b' ',
    }
}

/// Whether two cells show the same.
fn shows_same(first: Option<Status>, second: Option<Status>) -> bool
    ensures { result ≡ same_shown first second }
{
    symbol_of(first) == symbol_of(second)
}

/// Adds a run.
fn add_run(text: &mut Vec<u8>, form: Form, run: Run) -> Result<(), NoMemory>
    requires from { run.from ≤ 1000 }
    requires count { run.count ≤ 1000 }
    ensures { OnOk result (text.new.items ≡ text.old.items ++ run_text form run) }
{
    match form {
        Form::Plain => add_bytes(text, symbol_of(run.shown), run.count),
        Form::Colored => add_block(text, run.shown, run.count),
        Form::Svg => add_rect(text, run),
    }
}

/// The run that the next cell is in. If that isn't the same one, the one before is added.
fn run_with(
    text: &mut Vec<u8>,
    form: Form,
    run: Run,
    shown: Option<Status>,
) -> Result<Run, NoMemory>
    requires place { run.from + run.count ≤ 999 }
    ensures adds { IfOk result (λ next. (ms : List (Option StatusOf)) →
        text.new.items ++ flat_map (run_text form) (runs_on next ms)
        ≡ text.old.items ++ flat_map (run_text form) (runs_on run (shown ∷ ms))) }
    ensures place { IfOk result (λ next. next.from + next.count ≡ run.from + run.count + 1) }
{
    if shows_same(run.shown, shown) {
        return Ok(Run {
            count: run.count + 1,
            ..run
        });
    }
    add_run(text, form, run)?;
    Ok(Run {
        from: run.from + run.count,
        count: 1,
        shown,
    })
}

/// Adds the runs of `count` cells of a row, from one on.
pub(crate) fn add_runs<T: Tiles>(
    text: &mut Vec<u8>,
    form: Form,
    subject: &Subject<'_, T>,
    near: &mut Nearby,
    first: u64,
    count: u64,
) -> Result<(), NoMemory>
    requires frame { IsFrame subject.now.frame }
    requires some { 0 < count }
    requires few { count ≤ 1000 }
    requires within { first + count ≤ cells_in subject.now.frame }
    requires map { subject.now.frame.to ≤ length (T.statuses subject.now.tiles.now) }
    ensures { OnOk result (text.new.items ≡ text.old.items ++ flat_map (run_text form)
        (runs_of (marks_from subject.now.frame (covers subject.now.domain.now)
        (T.statuses subject.now.tiles.now) first count))) }
{
    let mut run = Run {
        from: 0,
        count: 1,
        shown: subject.mark_of(near, first),
    };
    let mut done = 1;
    while done < count {
        let shown = subject.mark_of(near, first + done);
        run = run_with(text, form, run, shown)?;
        done += 1;
    }
    add_run(text, form, run)?;
    Ok(())
}
