//! Causes that name a file or a stream.
ghost use Rattle.std.specs.Prelude.{◌↔◌, ◌≡◌, IsSome};

use crate::cause::{Cause, Doing, Named, Role, Stream};
use crate::reason::reason_text;
use std::io;

/// Why a file couldn't be opened, if the error was kept.
pub fn open_cause<'a>(file: Named<'a>, trouble: Option<io::Error>) -> Option<Cause<'a>>
    ensures { IsSome result ↔ IsSome trouble }
{
    let error = trouble?;
    Some(Cause::Refused {
        doing: Doing::Open,
        file,
        reason: reason_text(&error),
    })
}

/// Why a standard stream failed, if the error was kept.
pub fn stream_cause<'a>(stream: Stream, trouble: Option<io::Error>) -> Option<Cause<'a>>
    ensures { IsSome result ↔ IsSome trouble }
{
    let error = trouble?;
    Some(Cause::Stream {
        stream,
        reason: reason_text(&error),
    })
}

/// Two files of which the first is the infile or has the outfile's name, as the second one has.
pub fn same_name_cause<'a>(
    first: Role,
    second: Role,
    infile: &'a str,
    outfile: &'a str,
) -> Cause<'a> {
    Cause::OneName {
        first,
        second,
        name: match first {
            Role::Infile => infile,
            _ => outfile,
        },
    }
}
