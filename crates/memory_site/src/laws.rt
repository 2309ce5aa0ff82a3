//! What is known of the files that a stop of each kind leaves.
ghost use Rattle.memory_site.specs.LeftLaws.{KindsMayBeLeft, OldestIsDurable, NewestIsMade, GarbageIsUnsynced, UnsyncedIsLoose};

/// A stop of each kind leaves files that a stop may leave.
pub fn kinds_may_be_left()
    ensures { KindsMayBeLeft }
{}

/// Oldest leaves what was durable after the first k calls, and nothing else.
pub fn oldest_is_durable()
    ensures { OldestIsDurable }
{}

/// Newest leaves what reads after the next call, if none of the first k failed.
pub fn newest_is_made()
    ensures { NewestIsMade }
{}

/// Garbage leaves other bytes in each range that isn't synced, and elsewhere what Newest leaves.
pub fn garbage_is_unsynced()
    ensures { GarbageIsUnsynced }
{}

/// The ranges that aren't synced are those that a stop leaves loose.
pub fn unsynced_is_loose()
    ensures { UnsyncedIsLoose }
{}
