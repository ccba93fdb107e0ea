//! Rows: what a renderer keeps of each prim that it can use.

ghost use Rattle.std.specs.Prelude.{◌≡◌, IfOk};
ghost use Rattle.hd_rprim.specs.Rows.{blank, blank_rprim, blank_instancer};

use hd_num::{List, Matrix, Rgb, Vec3};
use hd_path::{Path, Token};
use hd_registry::Slot;
use hd_tokens::kinds;
use std::alloc::AllocError;

/// What a row draws.
#[derive(Clone, Copy, Debug, PartialEq, Eq)]
pub enum Shape {
    Mesh,

    /// A cloud of points.
    Points,
}

/// What a prim is meant for.
#[derive(Clone, Copy, Debug, PartialEq, Eq)]
pub enum Purpose {
    Default,
    Render,
    Proxy,
    Guide,
}

/// The row of a prim that is drawn.
#[derive(Drop)]
pub struct RprimRow {
    pub shape: Shape,

    /// The transform to the world, or `None` where it is out of range.
    pub matrix: Option<Matrix>,
    pub visible: bool,
    pub purpose: Purpose,

    /// The path of its material.
    pub binding: Option<Path>,

    /// The paths of its instancers, in path order.
    pub instanced_by: List<Path>,

    /// How many faces a mesh has, and 0 for points.
    pub faces: u64,
    pub points: Option<Slot>,
    pub triangles: Option<Slot>,
    pub colors: Option<Slot>,
}

/// The row of a prim that places copies of its targets.
#[derive(Drop)]
pub struct InstancerRow {
    /// The transform to the world, or `None` where it is out of range.
    pub matrix: Option<Matrix>,
    pub visible: bool,

    /// The paths of its own instancers, in path order.
    pub instanced_by: List<Path>,

    /// The place of each copy.
    pub positions: List<Vec3>,

    /// The number of the target of each copy.
    pub proto_indices: List<i64>,

    /// The paths of the prototypes.
    pub targets: List<Path>,
}

/// The row of a prim.
#[derive(Drop)]
pub enum Row {
    Rprim(RprimRow),

    /// A camera's transform to the world, or `None` where it is out of range.
    Camera(Option<Matrix>),

    /// A material's color.
    Material(Option<Rgb>),
    Instancer(InstancerRow),
}

impl Row {
    /// A row in which nothing was read yet, or `None` for a kind of prims that have no rows.
    pub fn blank(kind: &Token) -> Option<Row>
        ensures { result ≡ blank kind.now }
    {
        let kind = kind.text();
        if kind == kinds::MESH {
            Some(Row::Rprim(RprimRow::blank(Shape::Mesh)))
        } else if kind == kinds::POINTS {
            Some(Row::Rprim(RprimRow::blank(Shape::Points)))
        } else if kind == kinds::CAMERA {
            Some(Row::Camera(None))
        } else if kind == kinds::MATERIAL {
            Some(Row::Material(None))
        } else if kind == kinds::POINT_INSTANCER {
            Some(Row::Instancer(InstancerRow::blank()))
        } else {
            None
        }
    }

    /// An equal row, which shares its lists.
    pub fn copy(&self) -> Result<Row, AllocError>
        ensures { IfOk result (λ copied. copied ≡ self.now) }
    {
        match self {
            Row::Rprim(row) => Ok(Row::Rprim(row.copy()?)),
            Row::Camera(matrix) => Ok(Row::Camera(*matrix)),
            Row::Material(color) => Ok(Row::Material(*color)),
            Row::Instancer(row) => Ok(Row::Instancer(row.copy()?)),
        }
    }
}

impl RprimRow {
    fn blank(shape: Shape) -> RprimRow
        ensures { result ≡ blank_rprim shape }
    {
        RprimRow {
            shape,
            matrix: None,
            visible: false,
            purpose: Purpose::Default,
            binding: None,
            instanced_by: List::empty(),
            faces: 0,
            points: None,
            triangles: None,
            colors: None,
        }
    }

    /// An equal row, which shares its lists.
    pub fn copy(&self) -> Result<RprimRow, AllocError>
        ensures { IfOk result (λ copied. copied ≡ self.now) }
    {
        Ok(RprimRow {
            shape: self.shape,
            matrix: self.matrix,
            visible: self.visible,
            purpose: self.purpose,
            binding: copy_of(&self.binding)?,
            instanced_by: self.instanced_by.copy()?,
            faces: self.faces,
            points: self.points,
            triangles: self.triangles,
            colors: self.colors,
        })
    }
}

impl InstancerRow {
    fn blank() -> InstancerRow
        ensures { result ≡ blank_instancer }
    {
        InstancerRow {
            matrix: None,
            visible: false,
            instanced_by: List::empty(),
            positions: List::empty(),
            proto_indices: List::empty(),
            targets: List::empty(),
        }
    }

    /// An equal row, which shares its lists.
    pub fn copy(&self) -> Result<InstancerRow, AllocError>
        ensures { IfOk result (λ copied. copied ≡ self.now) }
    {
        Ok(InstancerRow {
            matrix: self.matrix,
            visible: self.visible,
            instanced_by: self.instanced_by.copy()?,
            positions: self.positions.copy()?,
            proto_indices: self.proto_indices.copy()?,
            targets: self.targets.copy()?,
        })
    }
}

/// An equal path, where there is one.
fn copy_of(path: &Option<Path>) -> Result<Option<Path>, AllocError>
    ensures { IfOk result (λ copied. copied ≡ path.now) }
{
    match path {
        Some(path) => Ok(Some(path.copy()?)),
        None => Ok(None),
    }
}
