//! The limits of the program.

ghost use Rattle.std.specs.Prelude.{◌≡◌};
ghost use Rattle.hd_layer.specs.Limits.{limit_of, word_of};

/// A quantity that the program limits.
#[derive(Clone, Copy, Debug, PartialEq, Eq)]
pub enum Which {
    /// The layer words of a command.
    Layers,
    /// The sync workers of a run.
    Workers,
    /// The size of the generated scene.
    Demo,
    /// The bytes of one layer file or of the script.
    Bytes,
    /// The prims of one layer.
    Prims,
    /// The names in a path.
    Depth,
    /// The bytes of a prim's name or type.
    Name,
    /// The elements of one list in a used property.
    Elements,
    /// The absolute value of a number in a used attribute.
    Literal,
    /// The brackets that are open at one place.
    Nesting,
    /// The width or the height of a frame, in pixels.
    Frame,
    /// The triangles that a frame draws.
    Triangles,
}

impl Which {
    /// The greatest number that is within the limit.
    pub fn number(&self) -> u64
        ensures { result ≡ limit_of self.now }
    {
        match self {
            Which::Layers => 8,
            Which::Workers => 16,
            Which::Demo => 2_048,
            Which::Bytes => 1_048_576,
            Which::Prims => 65_536,
            Which::Depth => 32,
            Which::Name => 64,
            Which::Elements => 65_536,
            Which::Literal => 1_048_576,
            Which::Nesting => 64,
            Which::Frame => 1_024,
            Which::Triangles => 1_048_576,
        }
    }

    /// The word for the limit in a fault line.
    pub fn word(&self) -> &'static str
        ensures { result.now ≡ word_of self.now }
    {
        match self {
            Which::Layers => "layers",
            Which::Workers => "workers",
            Which::Demo => "demo",
            Which::Bytes => "bytes",
            Which::Prims => "prims",
            Which::Depth => "depth",
            Which::Name => "name",
            Which::Elements => "elements",
            Which::Literal => "literal",
            Which::Nesting => "nesting",
            Which::Frame => "frame",
            Which::Triangles => "triangles",
        }
    }
}
