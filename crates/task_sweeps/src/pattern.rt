//! The pattern of fill mode: the infile's front, over and over.
ghost use Rattle.std.specs.Prelude.{◌≡◌, ℕ, ◌<◌, ◌≤◌, ◌^◌, ◌%◌, true, length, slice_get};
ghost use Rattle.size_suffixes.specs.Sectors.{largest_cluster};
ghost use Rattle.faulty_source.specs.SourceChanges.{Stays};
ghost use Rattle.task_sweeps.specs.Pattern.{PatternCause, ReadsPattern, TakesPattern, taken_as};

use faulty_source::source::Source;
use std::alloc::Global;
use task_files::ending::Ending;

/// Repeats the front of a buffer after itself, up to the buffer's end.
fn repeat_front(buffer: &mut [u8], front: usize)
    requires some { 0 < front }
    requires within { front ≤ length buffer.old }
    ensures long { length buffer.new ≡ length buffer.old }
    ensures each { (i : ℕ) → i < length buffer.old → slice_get buffer.new i ≡ slice_get buffer.old (i % front) }
{
    for i in front..buffer.len() {
        buffer[i] = buffer[i - front];
    }
}

/// Reads the front of an open input, which has a length, and repeats it until a buffer is full.
fn read_front<S: Source>(source: &mut S, end: u64, buffer: &mut [u8]) -> Result<(), Ending>
    requires opened { (S.state source.old).is_open ≡ true }
    requires some { 0 < length buffer.old }
    requires low { 0 < end }
    requires high { end < 2 ^ 63 }
    requires short { length buffer.old ≤ largest_cluster }
    ensures reads { ReadsPattern (length buffer.old) end buffer.new result (S.state source.old) (S.state source.new) }
    ensures cause { PatternCause result (S.state source.old) (S.state source.new) }
    ensures source { Stays (S.state source.old) (S.state source.new) }
{
    let front = end.min(buffer.len() as u64) as usize;
    let Ok(got) = source.read_at(0, &mut buffer[..front]) else {
        return Err(Ending::SourceLost);
    };
    if got.count() < front {
        return Err(Ending::PatternUnread);
    }
    repeat_front(buffer, front);
    Ok(())
}

/// The buffer of a cluster that the front of an open input fills, over and over. It is read once from its start: a
/// cluster, or all that there is of the length that the input told.
pub fn read_pattern<S: Source>(
    alloc: Global,
    source: &mut S,
    end: u64,
    cluster: u64,
) -> Result<Vec<u8>, Ending>
    requires opened { (S.state source.old).is_open ≡ true }
    requires some { 0 < cluster }
    requires short { cluster ≤ largest_cluster }
    requires high { end < 2 ^ 63 }
    ensures takes { TakesPattern cluster end (taken_as (λ b. b.items) result) (S.state source.old)
        (S.state source.new) }
    ensures cause { PatternCause result (S.state source.old) (S.state source.new) }
    ensures source { Stays (S.state source.old) (S.state source.new) }
{
    if end == 0 {
        return Err(Ending::EmptyPattern);
    }
    let Ok(mut buffer) = vec![in alloc; 0; cluster as usize] else {
        return Err(Ending::NoMemory);
    };
    read_front(source, end, &mut buffer)?;
    Ok(buffer)
}
