//! The fixed locators of a prim's values, from the outermost token in.

ghost use Rattle.std.specs.Prelude.{◌≡◌};
ghost use Rattle.hd_tokens.specs.Locators.{op_at};
ghost use Rattle.hd_tokens.specs.Tables.{texts};

/// Points of a mesh or of a cloud of points.
pub const POINTS: &[&str] = &["primvars", "points"];

/// Colors with channels from 0 to 255.
pub const COLOR8: &[&str] = &["primvars", "color8"];

/// Colors with channels from 0 to 1.
pub const DISPLAY_COLOR: &[&str] = &["primvars", "displayColor"];

/// The one list of colors that flattening leaves.
pub const COLOR: &[&str] = &["primvars", "color"];

/// All of a mesh's topology.
pub const MESH: &[&str] = &["mesh"];

/// The number of corners of each face.
pub const FACE_VERTEX_COUNTS: &[&str] = &["mesh", "counts"];

/// The point of each corner.
pub const FACE_VERTEX_INDICES: &[&str] = &["mesh", "indices"];

/// All that makes the transform.
pub const XFORM: &[&str] = &["xform"];

/// The order of the transform ops.
pub const XFORM_OP_ORDER: &[&str] = &["xform", "order"];

/// The mark of a prototype's root, whose transform takes nothing from its parent.
pub const XFORM_RESET: &[&str] = &["xform", "reset"];

/// The transform to the world, which flattening gives.
pub const XFORM_MATRIX: &[&str] = &["xform", "matrix"];

pub const VISIBILITY: &[&str] = &["visibility"];

pub const PURPOSE: &[&str] = &["purpose"];

/// The material that the prim is bound to.
pub const BINDING: &[&str] = &["binding"];

/// All of an instancer's own values.
pub const INSTANCER: &[&str] = &["instancer"];

/// The place of each instance.
pub const POSITIONS: &[&str] = &["instancer", "positions"];

/// The prototype of each instance.
pub const PROTO_INDICES: &[&str] = &["instancer", "protoIndices"];

/// The prototypes' paths.
pub const PROTOTYPES: &[&str] = &["instancer", "prototypes"];

/// The instancers of a prim, which instancing adds.
pub const INSTANCED_BY: &[&str] = &["instancedBy"];

/// All of a material's own values.
pub const MATERIAL: &[&str] = &["material"];

/// The color of a material.
pub const MATERIAL_COLOR8: &[&str] = &["material", "color8"];

/// The locator of the transform op of a name, which is what follows `xformOp:` in the name of its property.
pub fn xform_op(name: &str) -> [&str; 3]
    ensures { texts result ≡ op_at name.now }
{
    ["xform", "ops", name]
}
