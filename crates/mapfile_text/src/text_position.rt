//! How far a printer is in the text of a mapfile.
ghost use Rattle.std.specs.Prelude.{◌≡◌, ◌+◌, ◌-◌, ◌<◌, ◌≤◌};
ghost use Rattle.mapfile_text.specs.LeftOf.{number_of, position_of};

/// A part of the text. Each part is a line, except the line on the command line, which is three parts.
#[derive(Clone, Copy)]
pub(crate) enum TextPart {
    Program,
    Label,
    Words,
    Newline,
    Start,
    Now,
    StateColumns,
    State,
    Columns,
    /// The line of what is left from this position on of the stretch that holds it.
    Block(u64),
}

/// A place in the text: a part, and how many of its bytes went.
#[derive(Clone, Copy)]
pub(crate) struct TextPosition {
    pub(crate) part: TextPart,
    pub(crate) went: usize,
}

impl TextPart {
    /// The part after one of the heading's.
    pub(crate) fn next(self) -> TextPart
        requires { number_of self < 9 }
        ensures number { number_of result ≡ number_of self + 1 }
        ensures position { position_of result ≡ 0 }
    {
        match self {
            TextPart::Program => TextPart::Label,
            TextPart::Label => TextPart::Words,
            TextPart::Words => TextPart::Newline,
            TextPart::Newline => TextPart::Start,
            TextPart::Start => TextPart::Now,
            TextPart::Now => TextPart::StateColumns,
            TextPart::StateColumns => TextPart::State,
            TextPart::State => TextPart::Columns,
            TextPart::Columns => TextPart::Block(0),
            TextPart::Block(_) => unreachable!(),
        }
    }
}

impl TextPosition {
    /// The place after as much of a part of `len` bytes as there is room for; `next` is the part after it.
    pub(crate) fn after(self, len: usize, next: TextPart, room: usize) -> TextPosition
        ensures past { len ≤ self.went → result ≡ record { part = next; went = self.went - len } }
        ensures whole { self.went < len → len ≤ self.went + room → result ≡ record { part = next; went = 0 } }
        ensures cut { self.went + room < len → result ≡ record { part = self.part; went = self.went + room } }
    {
        if len <= self.went {
            TextPosition {
                part: next,
                went: self.went - len,
            }
        } else if len - self.went <= room {
            TextPosition {
                part: next,
                went: 0,
            }
        } else {
            TextPosition {
                part: self.part,
                went: self.went + room,
            }
        }
    }
}
