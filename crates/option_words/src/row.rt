//! A row of a table of options.
ghost use Rattle.std.specs.Prelude.{◌≡◌};
ghost use Rattle.option_words.specs.Rows.{is_alone};

/// Whether an option takes a value.
#[derive(Clone, Copy, Debug, PartialEq, Eq)]
pub enum Takes {
    /// The option has no value.
    Never,
    /// The option has a value: after the letter, after `=`, or else the whole next word, whatever that is.
    Always,
    /// The option may have a value, after the letter or after `=`, and never takes the next word.
    Optional,
}

impl Takes {
    /// Whether an option takes no value.
    pub(crate) fn stands_alone(self) -> bool
        ensures { result ≡ is_alone self }
    {
        match self {
            Takes::Never => true,
            Takes::Always | Takes::Optional => false,
        }
    }
}

/// What the value of an option should be. A message on a bad value goes by it, and so do the completions.
#[derive(Clone, Copy, Debug, PartialEq, Eq)]
pub enum Wants {
    /// The option takes no value.
    Nothing,
    /// A size.
    Size,
    /// A number of sectors, as a size.
    Sectors,
    /// Two sizes, of which each may be left out.
    Skips,
    /// A number.
    Number,
    /// A number from 0 to 65,535.
    Retries,
    /// A number from 1 to 65,536.
    Kib,
    /// A number from 1 to 1,000.
    Cells,
    /// A number, maybe after a `+`.
    Areas,
    /// A time.
    Interval,
    /// A list of types.
    Types,
    /// Two lists of types.
    TypeLists,
    /// One type.
    OneType,
    /// Two types.
    TwoTypes,
    /// The name of a mapfile.
    Mapfile,
    /// The name of the domain map.
    DomainMap,
    /// The name of the test map.
    TestMap,
    /// When a picture is in color.
    Coloring,
}

/// An option: its letter, if it has one, and its long name, both without hyphens. No definition reads what its value
/// should be, nor the line that says what it does.
#[derive(Clone, Copy, Debug)]
pub struct Row {
    pub short: Option<char>,
    pub long: &'static str,
    pub takes: Takes,
    pub wants: Wants,
    pub help: &'static str,
}

/// A row: the letter of an option, if it has one, its long name, whether it takes a value and what that should be, and
/// what the option does.
#[macro_export]
macro_rules! option_row {
    ($long:literal, Never: $help:literal) => {
        $crate::row::Row {
            short: None,
            long: $long,
            takes: $crate::row::Takes::Never,
            wants: $crate::row::Wants::Nothing,
            help: $help,
        }
    };
    ($long:literal, $takes:ident($wants:ident): $help:literal) => {
        $crate::row::Row {
            short: None,
            long: $long,
            takes: $crate::row::Takes::$takes,
            wants: $crate::row::Wants::$wants,
            help: $help,
        }
    };
    ($short:literal, $long:literal, Never: $help:literal) => {
        $crate::row::Row {
            short: Some($short),
            long: $long,
            takes: $crate::row::Takes::Never,
            wants: $crate::row::Wants::Nothing,
            help: $help,
        }
    };
    ($short:literal, $long:literal, $takes:ident($wants:ident): $help:literal) => {
        $crate::row::Row {
            short: Some($short),
            long: $long,
            takes: $crate::row::Takes::$takes,
            wants: $crate::row::Wants::$wants,
            help: $help,
        }
    };
}
