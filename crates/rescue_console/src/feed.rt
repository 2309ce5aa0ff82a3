//! A list that is taken from standard input.
ghost use Rattle.std.specs.Prelude.{◌<◌, ◌≤◌, length, IfOk};
ghost use Rattle.rescue_console.specs.FeedState.{FeedState, Answers};

/// The feed couldn't be read.
#[derive(Clone, Copy, Debug, PartialEq, Eq)]
pub struct FeedFault;

/// Bytes that are taken piece by piece, from the first to the last.
pub trait Feed {
    /// What it tells: the bytes that weren't taken yet, and how often a take failed.
    ghost state: { Self → FeedState };

    /// Takes bytes to the buffer's front, and answers how many: 0 exactly when none is left.
    fn take(&mut self, buf: &mut [u8]) -> Result<usize, FeedFault>
        requires { 0 < length buf.old }
        ensures count { IfOk result (λ n. n ≤ length buf.old) }
        ensures call { Answers (length buf.old) buf.new result (state self.old) (state self.new) };
}
