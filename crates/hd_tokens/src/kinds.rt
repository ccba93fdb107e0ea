//! The kinds of prims that pictures are made from.

pub const MESH: &str = "Mesh";

/// A cloud of points.
pub const POINTS: &str = "Points";

pub const CAMERA: &str = "Camera";

pub const MATERIAL: &str = "Material";

/// A prim that places copies of its prototypes.
pub const POINT_INSTANCER: &str = "PointInstancer";
