//! In which form a picture is put.
ghost use Rattle.std.specs.Prelude.{◌≡◌};
ghost use Rattle.ddrescueshow_cli.specs.Picture.{form_of, is_colored};

use ddrescueshow_words::options::{Coloring, ShowOptions};

/// The form of a picture.
#[derive(Clone, Copy, Debug, PartialEq, Eq)]
pub enum Form {
    /// Text, in which each cell is a character.
    Plain,
    /// Text, in which each cell is a blank in its color.
    Colored,
    /// SVG, in which equal cells side by side are a rectangle.
    Svg,
}

/// Whether text is in color.
fn is_colored(coloring: Coloring, terminal: bool) -> bool
    ensures { result ≡ is_colored coloring terminal }
{
    match coloring {
        Coloring::Auto => terminal,
        Coloring::Always => true,
        Coloring::Never => false,
    }
}

impl Form {
    /// The form that options ask for, by whether standard output is a terminal.
    pub(crate) fn of(options: &ShowOptions, terminal: bool) -> Form
        ensures { result ≡ form_of options.now terminal }
    {
        if options.svg {
            Form::Svg
        } else if is_colored(options.coloring, terminal) {
            Form::Colored
        } else {
            Form::Plain
        }
    }
}
