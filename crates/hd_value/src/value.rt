//! The values that a container holds.

ghost use Rattle.std.specs.Prelude.{◌≡◌, IfOk};

use hd_num::{List, Matrix, Op, Rgb, Vec3};
use hd_path::{Path, Token};
use std::alloc::AllocError;

/// A value of a prim.
#[derive(Drop)]
pub enum Value {
    Token(Token),
    Tokens(List<Token>),
    Ints(List<i64>),
    Vecs(List<Vec3>),
    Color(Rgb),
    Colors(List<Rgb>),
    Paths(List<Path>),
    Op(Op),
    Matrix(Matrix),

    /// A matrix that is out of range.
    Out,
    Flag(bool),
}

impl Value {
    /// An equal value, which shares what the value holds.
    pub fn copy(&self) -> Result<Value, AllocError>
        ensures { IfOk result (λ copied. copied ≡ self.now) }
    {
        match self {
            Value::Token(token) => Ok(Value::Token(token.copy()?)),
            Value::Tokens(tokens) => Ok(Value::Tokens(tokens.copy()?)),
            Value::Ints(numbers) => Ok(Value::Ints(numbers.copy()?)),
            Value::Vecs(points) => Ok(Value::Vecs(points.copy()?)),
            Value::Color(color) => Ok(Value::Color(*color)),
            Value::Colors(colors) => Ok(Value::Colors(colors.copy()?)),
            Value::Paths(paths) => Ok(Value::Paths(paths.copy()?)),
            Value::Op(op) => Ok(Value::Op(*op)),
            Value::Matrix(matrix) => Ok(Value::Matrix(*matrix)),
            Value::Out => Ok(Value::Out),
            Value::Flag(flag) => Ok(Value::Flag(*flag)),
        }
    }
}
