//! What holds of all lists of notices.

ghost use Rattle.hd_tracker.specs.Laws.{TrackingComposes, StaysSound, KeepsKinds, FollowsKinds, ClearBitsAreUntold, ClearBitsKeepValues};

/// Notice lists compose: concatenated, they do what the first does and then the second.
#[tactic(auto, using(crate::proofs::Tracking::tracking_composes))]
pub fn tracking_composes()
    ensures { TrackingComposes }
{}

/// Notices set no other bits than those of the kind, and keep no path whose kind has none.
#[tactic(auto, using(crate::proofs::Tracking::stays_sound))]
pub fn bits_stay_within_the_kind()
    ensures { StaysSound }
{}

/// The kind that is kept after notices is the one that they leave, where it has bits: after the notices that tell a step,
/// the kind that the new scene has.
#[tactic(auto, using(crate::proofs::Tracking::keeps_kinds, crate::proofs::Tracking::follows_kinds))]
pub fn kinds_are_those_of_the_scene()
    ensures after { KeepsKinds }
    ensures scene { FollowsKinds }
{}

/// Where a bit is clear after notices, none of them speaks of its group's values, and it was clear before. So after the
/// notices that tell a step, the values are those of the old scene.
pub fn clear_bits_keep_values()
    ensures untold { ClearBitsAreUntold }
    ensures values { ClearBitsKeepValues }
{}
