//! The collecting of a command line's words.
ghost use Rattle.std.specs.Prelude.{◌≡◌, drop, map, IfOk};
ghost use Rattle.std.specs.String.{string_bytes};
ghost use Rattle.std.specs.Vec.Iter.{into_iter_items};

use block_list::tiles::NoMemory;
use option_words::words::Words;
use std::alloc::Global;
use std::env::{self, Args};
use std::io::{self, ErrorKind};

/// The arguments after the first, which is the program's own name.
fn words_of(alloc: Global, args: Args) -> Result<Words, NoMemory>
    ensures { IfOk result (λ words. words ≡ map string_bytes (drop 1 (into_iter_items args))) }
{
    let mut words = Words::new(alloc);
    let mut rest = args;
    let _program = rest.next();
    while let Some(arg) = rest.next() {
        words.push(arg.as_str())?;
    }
    Ok(words)
}

/// The words of the command line, without the program's own name. If one isn't UTF-8, standard error says so.
///
/// # Errors
///
/// `OutOfMemory`; and what `std::env::args` answers, if a word is no text.
pub fn collect_words(rt: &HostRuntime, program: &str) -> io::Result<Words> {
    match env::args(rt) {
        Ok(args) => {
            words_of(rt.alloc(), args).map_err(|_| io::Error::from(ErrorKind::OutOfMemory))
        }
        Err(error) => {
            if error.kind() == ErrorKind::InvalidData {
                // A stream that fails changes no answer.
                let _said = eprintln!(rt;
                    "{program}: file names must be UTF-8: make a link with a plain name"
                );
            }
            Err(error)
        }
    }
}
