//! The files that a command names.
ghost use Rattle.std.specs.Prelude.{◌≡◌};
ghost use Rattle.program_promise.specs.Operands.{first_same};

use mapfile_save::names::Names;

/// A file that a command names, or the draft beside it.
#[derive(Clone, Copy, Debug, PartialEq, Eq)]
pub enum Operand {
    Infile,
    Outfile,
    Mapfile,
    /// The mapfile's name followed by `.tmp`.
    Draft,
}

/// The first two files that have the same name.
pub fn find_same(infile: &str, outfile: &str, names: &Names) -> Option<(Operand, Operand)>
    ensures { result ≡ first_same infile.now outfile.now names.now }
{
    if infile == outfile {
        return Some((Operand::Infile, Operand::Outfile));
    }
    if infile == names.map() {
        Some((Operand::Infile, Operand::Mapfile))
    } else if infile == names.draft() {
        Some((Operand::Infile, Operand::Draft))
    } else if outfile == names.map() {
        Some((Operand::Outfile, Operand::Mapfile))
    } else if outfile == names.draft() {
        Some((Operand::Outfile, Operand::Draft))
    } else {
        None
    }
}
