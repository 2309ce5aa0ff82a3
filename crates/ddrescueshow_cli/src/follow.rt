//! `ddrescueshow --progress`: follows a rescue by the lines that it prints.
ghost use Rattle.std.specs.Prelude.{◌≡◌, ◌≤◌, ◌++◌, false};
ghost use Rattle.arrayvec.specs.ArrayVec.{array_vec_len};
ghost use Rattle.program_promise.specs.Saying.{SaysAs};
ghost use Rattle.ddrescueshow_cli.specs.Following.{HasCause, follow_message, follow_status, follow_text, is_followed};
ghost use Rattle.ddrescueshow_cli.specs.PutLines.{Goes, PutsAll, first_stage};

use crate::follower::Follower;
use crate::message::PROGRAM;
use console_texts::message::{Message, add, begin, end};
use program_promise::answer::{Answer, say_ending};
use rescue_console::console::Console;
use rescue_console::feed::Feed;
use std::alloc::Global;

/// How a call that follows a rescue ended.
#[derive(Clone, Copy, Debug, PartialEq, Eq)]
pub enum FollowEnding {
    /// The lines ended, and each was put.
    Done,
    /// There are other arguments.
    NotAlone,
    /// Standard input couldn't be read.
    FeedFault,
    /// A line couldn't be put, or not all of it.
    ConsoleFault,
    /// There wasn't enough memory.
    NoMemory,
}

impl FollowEnding {
    /// The exit status.
    pub fn code(&self) -> u8
        ensures { result ≡ follow_status self.now }
    {
        match self {
            FollowEnding::Done => 0,
            FollowEnding::NoMemory => 4,
            _ => 1,
        }
    }
}

/// Adds the message on an answer.
fn add_ending(message: &mut Message, ending: FollowEnding)
    requires { array_vec_len message.old ≤ 20 }
    ensures text { message.new.items ≡ message.old.items ++ follow_text ending }
    ensures len { array_vec_len message.new ≤ 120 }
{
    match ending {
        FollowEnding::Done => {}
        FollowEnding::NotAlone => add(message, "--progress takes no other argument"),
        FollowEnding::FeedFault => add(message, "cannot read standard input"),
        FollowEnding::ConsoleFault => add(message, "cannot write standard output"),
        FollowEnding::NoMemory => add(message, "out of memory"),
    }
}

impl Answer for FollowEnding {
    ghost silent = { is_followed };

    ghost said = { follow_message };

    fn is_silent(self) -> bool {
        matches!(self, FollowEnding::Done)
    }

    fn message(self) -> Message {
        let mut message = begin(PROGRAM);
        add_ending(&mut message, self);
        end(&mut message);
        message
    }
}

/// How a rescue that is followed ends, without a message.
fn answer<I: Feed, P: Console>(
    alloc: Global,
    feed: &mut I,
    console: &mut P,
    terminal: bool,
) -> FollowEnding
    ensures cause { HasCause result (I.state feed.old) (I.state feed.new) (P.state console.old) (P.state console.new) }
    ensures goes { Goes terminal result (I.state feed.old) (I.state feed.new) (first_stage (P.state console.old))
        (P.state console.new) }
{
    let mut follower = Follower::new(alloc, terminal);
    follower.follow(feed, console)
}

/// Follows a rescue by the lines that it prints, which come on standard input. Of each line it puts what the line says;
/// on a terminal over the one before it. Another line passes. Then one message says why, unless all was put.
pub fn follow<I: Feed, P: Console>(
    alloc: Global,
    feed: &mut I,
    console: &mut P,
    terminal: bool,
) -> FollowEnding
    ensures cause { HasCause result (I.state feed.old) (I.state feed.new) (P.state console.old) (P.state console.new) }
    ensures puts { PutsAll terminal result (I.state feed.old) (I.state feed.new) (P.state console.old)
        (P.state console.new) }
{
    let ending = answer(alloc, feed, console, terminal);
    say_ending(console, ending, false);
    ending
}

/// Says that there wasn't enough memory to read the words, by one message.
pub fn starve<P: Console>(console: &mut P) -> FollowEnding
    ensures answer { result ≡ FollowEnding.NoMemory }
    ensures said { SaysAs false false (follow_message FollowEnding.NoMemory) (P.state console.old)
        (P.state console.new) }
{
    let ending = FollowEnding::NoMemory;
    say_ending(console, ending, false);
    ending
}

/// Refuses a call that has other arguments, by one message.
pub fn refuse<P: Console>(console: &mut P) -> FollowEnding
    ensures answer { result ≡ FollowEnding.NotAlone }
    ensures said { SaysAs false false (follow_message FollowEnding.NotAlone) (P.state console.old)
        (P.state console.new) }
{
    let ending = FollowEnding::NotAlone;
    say_ending(console, ending, false);
    ending
}
