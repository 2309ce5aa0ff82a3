//! What the definitions mean.
ghost use Rattle.mapfile_reader.specs.Laws.{ShapeIsOfReading};

/// What is found of a map without memory is what is read of it.
pub fn shape_is_of_reading()
    ensures { ShapeIsOfReading }
{}
