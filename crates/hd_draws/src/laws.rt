//! What holds of all rows, each the contract of a function that does nothing.

ghost use Rattle.hd_draws.specs.Laws.{InvisibleDrawsNothing, PlacedOnce, OtherRowsDrawNothing, CornersNamePoints};

/// A row that is not visible draws nothing.
#[tactic(auto, using(crate::proofs::DrawLaws::invisible_draws_nothing))]
pub fn invisible_draws_nothing()
    ensures { InvisibleDrawsNothing }
{}

/// A row without instancers is placed once, by its own matrix, where that is in range.
#[tactic(auto, using(crate::proofs::DrawLaws::placed_once))]
pub fn rows_without_instancers_are_placed_once()
    ensures { PlacedOnce }
{}

/// Rows that are neither of meshes nor of points draw nothing.
#[tactic(auto, using(crate::proofs::DrawLaws::other_rows_draw_nothing))]
pub fn other_rows_draw_nothing()
    ensures { OtherRowsDrawNothing }
{}

/// A triangle of which a corner names no point is not drawn.
#[tactic(auto, using(crate::proofs::DrawLaws::corners_name_points))]
pub fn corners_name_points()
    ensures { CornersNamePoints }
{}
