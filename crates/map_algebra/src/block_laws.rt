//! What the definitions on blocks mean.
ghost use Rattle.map_algebra.specs.BlockLaws.{CreatedHaveBlocks, ListedAre, ListingsGoOn, StandsInOne};

/// The listed numbers are those of the blocks that wanted positions lie in, each position lies in one, and a listing
/// gives them in order.
pub fn listed_numbers_are_blocks()
    ensures listed { ListedAre }
    ensures in_order { ListingsGoOn }
    ensures alone { StandsInOne }
{}

/// A created map has each listed block.
pub fn a_created_map_has_its_blocks()
    ensures { CreatedHaveBlocks }
{}
