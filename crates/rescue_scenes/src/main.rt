//! Plays rescues that are told in plain text over the forms in memory, and compares their results with those in the
//! text, or writes the text back with its results.
#![tactic(auto)]

mod drawn;
mod files;
mod part;
mod planned;
mod player;
mod scene;
mod verified;

use crate::files::{play_files, scene_files};
use crate::player::play;
use std::env;
use std::io::{self, Read};
use std::process::ExitCode;

/// The argument that asks for standard input.
const STANDARD_INPUT: &str = "-";

/// The exit status if a file of scenes differs from its results, or can't be read.
const DIFFERENT: u8 = 1;

/// The exit status if a line of standard input was not understood.
const NOT_UNDERSTOOD: u8 = 2;

/// The exit status if memory runs out.
const NO_MEMORY: u8 = 4;

/// The arguments, without the program's own name.
fn arguments(rt: &HostRuntime) -> io::Result<Vec<String>> {
    let mut words = Vec::new(rt.alloc());
    for word in env::args(rt)?.skip(1) {
        words.push(word)?;
    }
    Ok(words)
}

/// Plays the transcript on standard input, and writes it with its results. Answers whether each line was understood.
fn play_input(rt: &HostRuntime) -> io::Result<bool> {
    let mut transcript = Vec::new(rt.alloc());
    rt.reader().read_to_end(&mut transcript)?;
    play(rt.alloc(), &transcript, &mut io::writer(rt))
}

/// Plays what the arguments name. Answers the exit status.
fn run(rt: &HostRuntime) -> io::Result<u8> {
    let words = arguments(rt)?;
    if let [word] = words.as_slice()
        && word.as_str() == STANDARD_INPUT
    {
        let understood = play_input(rt)?;
        return Ok(if understood { 0 } else { NOT_UNDERSTOOD });
    }
    let same = if words.is_empty() {
        play_files(rt, &scene_files(rt)?)?
    } else {
        play_files(rt, &words)?
    };
    Ok(if same { 0 } else { DIFFERENT })
}

fn main(rt: HostRuntime) -> ExitCode {
    match run(&rt) {
        Ok(status) => ExitCode::from(status),
        Err(error) if error.kind() == io::ErrorKind::OutOfMemory => {
            let _ = eprintln!(rt; "rescue_scenes: out of memory");
            ExitCode::from(NO_MEMORY)
        }
        Err(error) => {
            let _ = eprintln!(rt; "rescue_scenes: {error}");
            ExitCode::FAILURE
        }
    }
}
