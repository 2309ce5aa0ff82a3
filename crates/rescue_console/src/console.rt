//! What a rescue says, and how a put may fail.
ghost use Rattle.rescue_console.specs.ConsoleState.{ConsoleState, Answers};

/// A piece couldn't be put, or not all of it.
#[derive(Clone, Copy, Debug, PartialEq, Eq)]
pub struct ConsoleFault;

/// Where a text goes.
#[derive(Clone, Copy, Debug, PartialEq, Eq)]
pub enum Channel {
    /// Standard output.
    Out,
    /// Standard error.
    Err,
}

/// A console with two channels.
pub trait Console {
    /// What it tells: the text on each channel, and how often a put there failed.
    ghost state: { Self → ConsoleState };

    /// Puts a piece on a channel, after what was put there before. After a fault a beginning of the piece was put.
    fn put(&mut self, channel: Channel, piece: &[u8]) -> Result<(), ConsoleFault>
        ensures { Answers channel piece.now result (state self.old) (state self.new) };
}
