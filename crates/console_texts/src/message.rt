//! A message on the console, which is made as one piece: the program's name, what it says, and a newline.
ghost use Rattle.std.specs.Prelude.{◌≡◌, ◌+◌, ◌≤◌, ◌<◌, ◌++◌, [], ◌∷◌, length, codes};
ghost use Rattle.arrayvec.specs.ArrayVec.{array_vec_len};
ghost use Rattle.console_texts.specs.Texts.{numbered_text};

use arrayvec::ArrayVec;
use itoa::Buffer;

/// A message. Each text of a fault fits after 40 bytes.
pub type Message = ArrayVec<u8, 128>;

/// A message that a program begins, with its name.
pub fn begin(program: &str) -> Message
    requires { length program.now ≤ 18 }
    ensures { result.items ≡ program.now ++ codes ": " }
{
    let mut message = Message::new();
    add(&mut message, program);
    add(&mut message, ": ");
    message
}

/// Adds a text for which there is room.
pub fn add(message: &mut Message, text: &str)
    requires { array_vec_len message.old + length text.now ≤ 128 }
    ensures { message.new.items ≡ message.old.items ++ text.now }
{
    let _fits = message.try_extend_from_slice(text.as_bytes());
}

/// Adds a number between two texts. It has up to 40 digits.
pub fn add_number(message: &mut Message, what: &str, n: usize, says: &str)
    requires { array_vec_len message.old + length what.now + length says.now ≤ 88 }
    ensures text { message.new.items ≡ message.old.items ++ numbered_text what.now n says.now }
    ensures len { array_vec_len message.new ≤ array_vec_len message.old + length what.now + length says.now + 40 }
{
    add(message, what);
    add(message, Buffer::new().format(n));
    add(message, says);
}

/// Ends a message with a newline.
pub fn end(message: &mut Message)
    requires { array_vec_len message.old < 128 }
    ensures { message.new.items ≡ message.old.items ++ 10 ∷ [] }
{
    add(message, "\n");
}
