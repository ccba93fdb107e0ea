//! Worked examples of properties, their locators and their values.

ghost use Rattle.std.specs.Prelude.{IsTrue, IfSome};
ghost use Rattle.hd_layer.specs.WellFormed.{is_prim_spec, is_layer};

use hd_num::{Axis, Op, Rgb};
use hd_path::Token;
use hd_schema::{locators_of, to_container};
use hd_usda::{LayerSpec, PrimSpec, read_layer};
use hd_value::{Container, Locator, Source, Value};
use std::alloc::{AllocError, Global};

/// A prim with each used property, and one that is not used.
const LAYER: &str = r#"#usda 1.0
def "P"
{
    point3f[] points = [(1, 2, 3), (-4, 5, 6)]
    int[] faceVertexCounts = [3, -1]
    int[] faceVertexIndices = []
    color3f[] primvars:displayColor = [(-1, 0, 1), (254, 255, 256)]
    int3[] primvars:color8 = [(-1, 0, 1), (254, 255, 256)]
    uniform token[] xformOpOrder = ['!resetXformStack!', 'xformOp:scale:a:b']
    token visibility = 'invisible'
    uniform token purpose = 'guide'
    rel material:binding = [</B>, </A/C>]
    double3[] positions = [(7, 8, 9)]
    int[] protoIndices = [0, 2]
    rel prototypes = </P>
    int3 color8 = (-5, 128, 300)
    double3 xformOp:translate = (1, 2, 3)
    float3 xformOp:scale:a:b = (1, -2, 3)
    float xformOp:rotateX = 90
    double xformOp:rotateY = -90
    half xformOp:rotateZ = 450
    float3 xformOp:rotateXYZ = (180, 270, -360)
    matrix4d xformOp:transform = ((1, 2, 3, 0), (4, 5, 6, 0), (7, 8, 9, 0), (10, 11, 12, 1))
    float[] extent = [0.5]
}
"#;

/// The first prim of a layer.
fn first_prim(layer: &LayerSpec) -> Option<&PrimSpec>
    requires { IsTrue (is_layer layer.now) }
    ensures { IfSome result (λ prim. IsTrue (is_prim_spec prim.now)) }
{
    layer.prims.items().first()
}

/// Whether this op is at the name of an op.
fn has_op(alloc: Global, values: &Container, name: &str, op: Op) -> Result<bool, AllocError> {
    match values.get(&Locator::of(alloc, &["xform", "ops", name])?) {
        Some(Source::Leaf(Value::Op(found))) => Ok(*found == op),
        _ => Ok(false),
    }
}

/// Whether this colour is that of the material.
fn has_color(alloc: Global, values: &Container, color: Rgb) -> Result<bool, AllocError> {
    match values.get(&Locator::of(alloc, &["material", "color8"])?) {
        Some(Source::Leaf(Value::Color(found))) => Ok(*found == color),
        _ => Ok(false),
    }
}

/// Whether turns of a prim are from none to three, and the numbers of its colour from 0 to 255.
fn has_values(alloc: Global, prim: &PrimSpec) -> Result<bool, AllocError>
    requires { IsTrue (is_prim_spec prim.now) }
{
    let values = to_container(alloc, prim)?;
    let color = Rgb {
        r: 0,
        g: 128,
        b: 255,
    };
    Ok(
        has_op(alloc, &values, "rotateY", Op::Rotate(Axis::Y, 3))?
            && has_op(alloc, &values, "rotateXYZ", Op::RotateXyz(2, 3, 0))?
            && has_color(alloc, &values, color)?,
    )
}

/// Whether the layer's prim has the values that it should.
fn values_are_right(alloc: Global) -> bool {
    let Ok(layer) = read_layer(alloc, LAYER.as_bytes()) else {
        return false;
    };
    match first_prim(&layer) {
        Some(prim) => has_values(alloc, prim) == Ok(true),
        None => false,
    }
}

#[test]
fn a_prim_has_the_values_of_its_properties(rt: HostRuntime) {
    assert!(rt; values_are_right(rt.alloc()));
}

/// Whether the only locator of a name has these tokens.
fn has_locator(alloc: Global, name: &str, tokens: &[&str]) -> Result<bool, AllocError> {
    let wanted = Locator::of(alloc, tokens)?;
    match locators_of(alloc, &Token::new(alloc, name)?)?.members() {
        [only] => Ok(only.is_prefix_of(&wanted) && wanted.is_prefix_of(only)),
        _ => Ok(false),
    }
}

/// Whether used properties have a locator, and others have none.
fn locators_are_right(alloc: Global) -> Result<bool, AllocError> {
    Ok(
        has_locator(alloc, "faceVertexCounts", &["mesh", "counts"])?
            && has_locator(alloc, "xformOp:scale:a:b", &["xform", "ops", "scale:a:b"])?
            && locators_of(alloc, &Token::new(alloc, "extent")?)?.is_empty(),
    )
}

#[test]
fn a_used_property_has_one_locator(rt: HostRuntime) {
    assert!(rt; locators_are_right(rt.alloc()) == Ok(true));
}
