//! The blocks of the output.
ghost use Rattle.std.specs.Prelude.{◌≡◌};
ghost use Rattle.ddrescuelog_cli.specs.Maps.{shape_of};

use ddrescuelog_words::options::LogOptions;
use map_algebra::shape::Shape;

/// The blocks of the output.
pub(crate) fn shape_of(options: &LogOptions) -> Shape
    ensures { result ≡ shape_of options.now }
{
    Shape {
        ipos: options.input_position,
        opos: options.output_position.unwrap_or(options.input_position),
        size: options.block,
    }
}
