//! What follows from the definitions of the picture. The functions do nothing; their contracts are
//! the laws.

ghost use Rattle.hd_picture.specs.Laws.{BeyondShowsNothing, CoversEdges, CoversInBounds, DepthsStayBetween, EachRoundsDown, FlatHasOneDepth, MirrorImageShowsTheSame, NeighboursFit, RotationShowsTheSame, ShowsFirstNearest, TilesMakeThePicture, UnseenChangesNothing, WeightsAddUp};

/// Depths are rounded down.
pub fn depths_round_down()
    ensures { EachRoundsDown }
{}

/// A triangle's depth is between those of its corners, and is theirs where it is flat.
pub fn depths_stay_between()
    ensures between { DepthsStayBetween }
    ensures flat { FlatHasOneDepth }
{}

/// A triangle beyond the eye shows nothing.
pub fn triangles_beyond_the_eye_are_unseen()
    ensures { BeyondShowsNothing }
{}

/// The order of a triangle's corners does not matter.
pub fn corners_have_no_order()
    ensures rotation { RotationShowsTheSame }
    ensures mirror_image { MirrorImageShowsTheSame }
{}

/// A triangle shows nothing outside of the bounds of its corners.
pub fn triangles_stay_in_their_boxes()
    ensures { CoversInBounds }
{}

/// A triangle with an area covers its edges.
pub fn edges_are_covered()
    ensures { CoversEdges }
{}

/// A triangle's weights have the same sum at each point: what its corners span.
pub fn weights_add_up()
    ensures { WeightsAddUp }
{}

/// Two triangles on both sides of an edge leave no gap there, and overlap on its line alone.
pub fn neighbours_fit()
    ensures { NeighboursFit }
{}

/// A triangle changes only the pixels where it shows something.
pub fn unseen_triangles_change_nothing()
    ensures { UnseenChangesNothing }
{}

/// A pixel has the color that `nearest` names.
pub fn pixels_show_the_nearest()
    ensures { ShowsFirstNearest }
{}

/// Each pixel of the picture is in one of its tiles.
pub fn tiles_make_the_picture()
    ensures { TilesMakeThePicture }
{}
