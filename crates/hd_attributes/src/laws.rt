//! What holds of all layers.

ghost use Rattle.hd_attributes.specs.Laws.{RowsAreOfAttributes};

/// The rows that are read of the containers of the scene of sound layers are those that the layers' attributes give.
pub fn rows_are_of_attributes()
    ensures { RowsAreOfAttributes }
{}
