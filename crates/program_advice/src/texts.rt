//! The fixed texts of causes.
ghost use Rattle.std.specs.Prelude.{◌≡◌, ◌≤◌, length};
ghost use Rattle.program_advice.specs.Texts.{doing_text, fact_text, hint_text, left_text, option_text, role_text, stream_text};

use crate::cause::{Doing, Fact, Hint, LimitOption, Role, Stream};

/// What a file is called.
pub(crate) fn role_text(role: Role) -> &'static str
    ensures text { result.now ≡ role_text role }
    ensures len { length result.now ≤ 19 }
{
    match role {
        Role::Infile => "infile",
        Role::Pattern => "pattern",
        Role::Outfile => "outfile",
        Role::Mapfile => "mapfile",
        Role::Draft => "the mapfile's draft",
        Role::DomainMap => "domain mapfile",
        Role::TestMap => "test mapfile",
        Role::OtherMap => "other mapfile",
    }
}

/// What couldn't be done.
pub(crate) fn doing_text(doing: Doing) -> &'static str
    ensures text { result.now ≡ doing_text doing }
    ensures len { length result.now ≤ 14 }
{
    match doing {
        Doing::Open => "cannot open ",
        Doing::Read => "cannot read ",
        Doing::Write => "cannot write ",
        Doing::Sync => "cannot flush ",
        Doing::Remove => "cannot remove ",
    }
}

/// The text on a file that follows its name.
pub(crate) fn fact_text(fact: Fact) -> &'static str
    ensures text { result.now ≡ fact_text fact }
    ensures len { length result.now ≤ 90 }
{
    match fact {
        Fact::InUse => " is in use by another rescue",
        Fact::NotApart => " is the infile or the outfile by another name",
        Fact::DraftNotApart => {
            " or its draft (.tmp) is the infile or the outfile by another name"
        }
        Fact::NotRegular => " isn't a regular file",
        Fact::NeedsForce => {
            " isn't a regular file: option -f writes to it, and what it holds is lost"
        }
        Fact::Absent => " doesn't exist",
        Fact::Unplugged => " isn't there: is the disk connected?",
        Fact::Exists => " exists: option -f replaces it",
        Fact::Empty => " is empty",
        Fact::NoMap => " isn't a mapfile, or it was damaged",
        Fact::Replaced => " or its draft (.tmp) was replaced by another program",
    }
}

/// Which stream failed.
pub(crate) fn stream_text(stream: Stream) -> &'static str
    ensures text { result.now ≡ stream_text stream }
    ensures len { length result.now ≤ 40 }
{
    match stream {
        Stream::Input => "cannot read standard input: ",
        Stream::Output => "cannot write standard output: ",
    }
}

/// Which option set a limit.
pub(crate) fn option_text(option: LimitOption) -> &'static str
    ensures text { result.now ≡ option_text option }
    ensures len { length result.now ≤ 30 }
{
    match option {
        LimitOption::ReadErrors => "option -X set this limit",
        LimitOption::BadAreas => "option -e set this limit",
        LimitOption::Timeout => "option -T set this limit",
    }
}

/// What follows the number of bytes that a run left.
pub(crate) fn left_text(skips: bool, loses_neighbors: bool) -> &'static str
    ensures text { result.now ≡ left_text skips loses_neighbors }
    ensures len { length result.now ≤ 110 }
{
    match (skips, loses_neighbors) {
        (false, false) => {
            " B weren't read; with -r 3 and without -X the same command tries the bad sectors again"
        }
        (false, true) => {
            " B weren't read; ddrescuerun reads past the kernel's cache and can get more of them"
        }
        (true, false) =>
            " B weren't read; repeat the command without -N, then without -n, then with -r 3",
        (true, true) => {
            " B weren't read; repeat the command without -N, then without -n, then with -r 3; ddrescuerun can get more"
        }
    }
}

/// The advice that names nothing.
pub(crate) fn hint_text(hint: Hint) -> &'static str
    ensures text { result.now ≡ hint_text hint }
    ensures len { length result.now ≤ 90 }
{
    match hint {
        Hint::SameFile => "infile and outfile are the same file",
        Hint::InputLost => {
            "reconnect the disk and give the same command (its name may have changed)"
        }
        Hint::StoppedRescue => {
            "stopped as asked; the map is saved, and the same command (without -A and -M) resumes"
        }
        Hint::StoppedWithoutMap => {
            "stopped as asked; there is no mapfile, so the same command begins anew"
        }
        Hint::StoppedComparison => "stopped as asked; nothing was saved",
        Hint::StoppedSearch => "stopped as asked",
        Hint::NoMemory => "memory is short: end other programs and give the same command",
        Hint::BlockNumbers => "each line of the list is one block number, such as 17 or 0x11",
        Hint::NoTable => "the infile has no DOS partition table that can be read there",
        Hint::OtherTable =>
            "the infile has a GPT: -i and -s are 512 times start and size in /sys/block/DISK/PARTITION",
        Hint::NoPartition => "'lsblk' lists a disk's partitions, and 'fdisk -l' those of an image",
    }
}
