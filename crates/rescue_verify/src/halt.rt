//! Why a comparison ended early.

use block_list::tiles::NoMemory;

/// Why a comparison stopped before its last piece.
#[derive(Clone, Copy, Debug, PartialEq, Eq)]
pub enum Halt {
    /// There wasn't enough memory for the two buffers, or for a piece's mark in the map.
    NoMemory,
    /// The input was lost during a read.
    SourceLost,
    /// A read of the image failed.
    ImageFault,
}

impl From<NoMemory> for Halt {
    ghost use Rattle.std.specs.Prelude.{◌≡◌};
    ghost use Rattle.rescue_verify.specs.declared.halt.Halt.TheVariants.{NoMemory as OutOfMemory};

    ghost from_gives = { λ _ e. e ≡ OutOfMemory };

    fn from(_error: NoMemory) -> Halt {
        Halt::NoMemory
    }
}
