//! Whether each position of the domain has a place in the output.
ghost use Rattle.std.specs.Prelude.{◌≡◌, ◌<◌, ◌^◌, true, false};
ghost use Rattle.ddrescue_words.specs.Asking.{AreInLimits};
ghost use Rattle.task_files.specs.Asked.{ArePlacedBy, IsBeyond};

use ddrescue_words::options::Options;
use rescue_domain::places;

/// Whether the positions that are asked for of an input of this length all end in the output below 2^63.
pub fn places_fit(options: &Options, end: u64) -> bool
    requires limits { AreInLimits options.now }
    requires end { end < 2 ^ 63 }
    ensures fit { result ≡ true → ArePlacedBy options.now end }
    ensures beyond { result ≡ false → IsBeyond options.now end }
{
    let from = options.input_position;
    let to = options.output_position.unwrap_or(from);
    places::places_fit(from, options.size, to, end)
}
