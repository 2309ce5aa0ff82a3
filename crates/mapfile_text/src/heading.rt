//! The heading of a mapfile: the program, its command line and its times.
ghost use Rattle.std.specs.Prelude.{◌≡◌, IfOk};
ghost use Rattle.mapfile_text.specs.Printed.{program_name, shown_byte};

use block_list::tiles::NoMemory;
use std::alloc::Global;
use std::marker::Model;

/// The program that prints a mapfile.
#[derive(Clone, Copy, Debug, PartialEq, Eq)]
pub enum Program {
    Ddrescue,
    Ddrescuelog,
}

impl Program {
    /// The program's name, as a mapfile has it.
    pub fn name(self) -> &'static str
        ensures { result.now ≡ program_name self }
    {
        match self {
            Program::Ddrescue => "ddrescue",
            Program::Ddrescuelog => "ddrescuelog",
        }
    }
}

/// What the first lines of a mapfile say. The times are in seconds since 1970.
#[derive(Drop)]
pub struct Heading {
    program: Program,
    line: String,
    start_s: u64,
    now_s: u64,
}

impl Model for Heading {
    ghost use Rattle.std.specs.String.{string_bytes};
    ghost use Rattle.mapfile_text.specs.HeadingLines.{HeadingLines};

    ghost Value = { HeadingLines };

    ghost view = { λ h.
        record { program = h.program; line = string_bytes h.line; start_s = h.start_s; now_s = h.now_s } };
}

impl Heading {
    /// A heading with both times 0. The line is the whole command line, the program's name and its words.
    pub fn new(alloc: Global, program: Program, line: &str) -> Result<Heading, NoMemory>
        ensures { IfOk result (λ h. h ≡ record { program = program; line = line.now; start_s = 0; now_s = 0 }) }
    {
        let line = String::from_str(alloc, line)?;
        Ok(Heading {
            program,
            line,
            start_s: 0,
            now_s: 0,
        })
    }

    /// Sets when the run began and when the mapfile is saved.
    pub fn set_times(&mut self, start_s: u64, now_s: u64)
        ensures { self.new ≡ record {
          program = self.old.program;
          line = self.old.line;
          start_s =
              start_s;
          now_s = now_s;
        } }
    {
        self.start_s = start_s;
        self.now_s = now_s;
    }

    /// The program that prints the mapfile.
    pub fn program(&self) -> Program
        ensures { result ≡ self.now.program }
    {
        self.program
    }

    /// The command line.
    pub fn line(&self) -> &[u8]
        ensures { result.now ≡ self.now.line }
    {
        self.line.as_bytes()
    }

    /// When the run began, in seconds since 1970.
    pub fn start_s(&self) -> u64
        ensures { result ≡ self.now.start_s }
    {
        self.start_s
    }

    /// When the mapfile is saved, in seconds since 1970.
    pub fn now_s(&self) -> u64
        ensures { result ≡ self.now.now_s }
    {
        self.now_s
    }
}

/// A byte as it is printed: a control character becomes a question mark.
pub fn shown_byte(byte: u8) -> u8
    ensures { result ≡ shown_byte byte }
{
    if byte < 0x20 || byte == 0x7F {
        b'?'
    } else {
        byte
    }
}
