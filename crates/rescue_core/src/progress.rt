//! Where a run is at the start of a pass, and after a read.
ghost use Rattle.std.specs.Prelude.{◌≡◌, ℕ, ◌+◌, ◌<◌, ◌≤◌, ◌^◌, List, length, Option};
ghost use Rattle.block_list.specs.declared.block.Range.{Range};
ghost use Rattle.block_list.specs.declared.status.Status.{Status};
ghost use Rattle.run_options.specs.Settings.{IsSound};
ghost use Rattle.mapfile_save.specs.MapNames.{MapNames};
ghost use Rattle.rescue_rules.specs.declared.phase.Phase.{Phase};
ghost use Rattle.rescue_rules.specs.declared.phase.Phase.TheVariants.{Trimming};
ghost use Rattle.rescue_rules.specs.declared.stop.TrimMode.TheVariants.{Lead};
ghost use Rattle.rescue_rules.specs.Passes.{numbered};
ghost use Rattle.rescue_rules.specs.Machine.{pass_of, start_of, is_wanted};
ghost use Rattle.rescue_rules.specs.Step.{Event, map_after, is_jump, cursor_after, mode_after, skip_after, step};
ghost use Rattle.rescue_rules.specs.Beginning.{first_pass, first_cursor};
ghost use Rattle.rescue_core.specs.RunState.{RunState, setting_in, setting_with};
ghost use Rattle.rescue_core.specs.Turning.{turn_of};
ghost use Rattle.rescue_core.specs.TurnParts.{RunsAt, IsReadOf};

use crate::request::{is_up, start_of};
use crate::turn::{Read, Turn};
use mapfile_text::state::MapState;
use rescue_rules::phase::{COPYING_PASSES, Phase};
use rescue_rules::progress::Progress;
use rescue_rules::stop::TrimMode;
use run_options::settings::Settings;

/// The start of a pass over a map that ends at `end`.
pub(crate) fn progress_at_start(settings: &Settings, pass: u32, end: u64) -> Progress
    ensures pass { result.pass ≡ pass }
    ensures cursor { (domain : List Range) (names : Option MapNames) (line : List ℕ) (phase : Phase)
        (map : List Status) → length map ≡ end
        → result.cursor ≡ start_of (setting_with settings.now domain names line) (numbered phase pass) map }
    ensures mode { result.mode ≡ Lead }
    ensures skip { result.skip ≡ settings.now.skips.first }
{
    Progress {
        pass,
        cursor: start_of(settings, pass, end),
        mode: TrimMode::Lead,
        skip: settings.skips.first,
    }
}

/// Where a run over a map that ends at `end` begins, which may go on from a state that a mapfile showed.
pub(crate) fn first_progress(settings: &Settings, loaded: Option<MapState>, end: u64) -> Progress
    ensures pass { result.pass ≡ first_pass loaded }
    ensures cursor { (domain : List Range) (names : Option MapNames) (line : List ℕ) (map : List Status)
        → length map ≡ end → result.cursor ≡ first_cursor (setting_with settings.now domain names line) loaded map }
    ensures mode { result.mode ≡ Lead }
    ensures skip { result.skip ≡ settings.now.skips.first }
{
    let Some(state) = loaded else {
        return progress_at_start(settings, 1, end);
    };
    let pass = state.pass.min(COPYING_PASSES);
    let progress = progress_at_start(settings, pass, end);
    if pass == COPYING_PASSES {
        progress
    } else {
        Progress {
            cursor: state.pos.min(end),
            ..progress
        }
    }
}

/// Goes on to where a run is after a read, in a map of this many positions. While it trims, `more` says whether the
/// position after the read is asked for.
#[inline(always)]
pub(crate) fn progress_after(
    settings: &Settings,
    phase: Phase,
    progress: &mut Progress,
    top: u64,
    read: Read,
    more: bool,
)
    requires sound { IsSound settings.now }
    requires skip { progress.old.skip ≤ settings.now.skips.most }
    requires within { read.request.pos + read.request.len ≤ top }
    requires given { read.turn.given ≤ read.request.len }
    requires short { top < 2 ^ 63 }
    ensures { (r : RunState) (e : Event) → RunsAt settings.now phase progress.old r
        → IsReadOf read.request read.turn.given read.turn.ended e.reading → read.turn ≡ turn_of r e
        → length r.machine.map ≡ top
        → (phase ≡ Trimming
        → more ≡ is_wanted (setting_in r)
        (record r.machine { map = map_after (setting_in r) r.machine e.reading }) (read.request.pos + read.request.len))
        → progress.new ≡ (step (setting_in r) r.machine e).progress }
{
    let Read { request, turn } = read;
    let jumped = jumps(phase, progress.pass, turn);
    progress.cursor = next_cursor(settings, phase, *progress, top, read, jumped);
    progress.mode = if phase == Phase::Trimming {
        next_mode(
            progress.mode,
            !turn.failed(),
            more,
            request.pos,
            request.pos + request.len as u64,
        )
    } else {
        TrimMode::Lead
    };
    progress.skip = next_skip(settings, progress.skip, jumped, turn);
}

/// The cursor after a read.
#[tactic(auto, using(crate::proofs::ProgressLemmas::cursor_is))]
fn next_cursor(
    settings: &Settings,
    phase: Phase,
    progress: Progress,
    top: u64,
    read: Read,
    jumped: bool,
) -> u64
    requires small { progress.skip < 2 ^ 63 }
    requires within { read.request.pos + read.request.len ≤ top }
    requires short { top < 2 ^ 63 }
    requires given { read.turn.given ≤ read.request.len }
    ensures { (r : RunState) (e : Event) → RunsAt settings.now phase progress r
        → IsReadOf read.request read.turn.given read.turn.ended e.reading → jumped ≡ is_jump (setting_in r) r.machine e
        → length r.machine.map ≡ top → result ≡ cursor_after (setting_in r) r.machine e }
{
    let Read { request, turn } = read;
    let jump = if jumped { progress.skip } else { 0 };
    let size = if turn.ended {
        turn.given
    } else {
        request.len as u64
    };
    if phase == Phase::Trimming {
        request.pos
    } else if is_up(settings, progress.pass) {
        top.min(request.pos + size + jump)
    } else {
        request.pos.saturating_sub(jump)
    }
}

/// How far copying jumps next.
fn next_skip(settings: &Settings, skip: u64, jumped: bool, turn: Turn) -> u64
    requires small { skip < 2 ^ 63 }
    ensures { (r : RunState) (e : Event) → r.settings ≡ settings.now → r.machine.progress.skip ≡ skip
        → turn ≡ turn_of r e → jumped ≡ is_jump (setting_in r) r.machine e
        → result ≡ skip_after (setting_in r) r.machine e }
{
    if jumped {
        settings.skips.most.min(2 * skip)
    } else if turn.failed() || turn.slow {
        skip
    } else {
        settings.skips.first
    }
}

/// Whether copying jumps after a read.
fn jumps(phase: Phase, pass: u32, turn: Turn) -> bool
    ensures { (r : RunState) (e : Event) → pass_of r.machine ≡ numbered phase pass → turn ≡ turn_of r e
        → result ≡ is_jump (setting_in r) r.machine e }
{
    let far = if turn.failed() {
        pass <= 4
    } else {
        turn.slow && pass <= 2
    };
    far && phase == Phase::Copying
}

/// The mode of trimming after a read from one position up to another.
fn next_mode(mode: TrimMode, good: bool, more: bool, from: u64, to: u64) -> TrimMode
    ensures { result ≡ mode_after mode good more from to }
{
    match (mode, good) {
        (TrimMode::Lead, false) if more => TrimMode::Tail(to),
        (TrimMode::Tail(low), true) if low < from => TrimMode::Tail(low),
        _ => TrimMode::Lead,
    }
}
