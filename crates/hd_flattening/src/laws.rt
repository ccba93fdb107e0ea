//! What holds of every flat scene.

ghost use Rattle.hd_flattening.specs.Laws.{FlattenedIsClosed, FlattenedConforms, InvisibleHides, MatrixOfChild, MatrixOfReset, MatrixOfRoot, MatrixOutOfRange};

/// A child is moved by its local matrix and then by its parent's flat one, and is out of range where the parent is. A
/// root prim and a prim that is reset have their local matrix alone.
pub fn matrices_compose()
    ensures child { MatrixOfChild }
    ensures out_of_range { MatrixOutOfRange }
    ensures root { MatrixOfRoot }
    ensures reset { MatrixOfReset }
{}

/// An invisible prim hides itself and all below it.
pub fn invisible_hides()
    ensures { InvisibleHides }
{}

/// A flat scene is closed where the scene is, and has the values that flattening gives where the scene has those that
/// layers author and instancing gives.
pub fn flattened_is_a_scene()
    ensures closed { FlattenedIsClosed }
    ensures conforms { FlattenedConforms }
{}
