//! Sets of dirty bits.

ghost use Rattle.std.specs.Prelude.{◌≡◌};
ghost use Rattle.hd_dirty.specs.Bits.{bit_of_group, has, number_of};

use bitflags::{Flag, Flags};
use hd_value::Group;

/// A set of dirty bits, one for each group of values that change together.
#[derive(Clone, Copy, PartialEq, Eq, Debug)]
pub struct Bits(u32);

impl Bits {
    pub const POINTS: Bits = Bits(1);

    pub const TOPOLOGY: Bits = Bits(2);

    pub const COLOR: Bits = Bits(4);

    pub const TRANSFORM: Bits = Bits(8);

    pub const VISIBILITY: Bits = Bits(16);

    pub const PURPOSE: Bits = Bits(32);

    pub const BINDING: Bits = Bits(64);

    pub const INSTANCER: Bits = Bits(128);

    pub const INSTANCES: Bits = Bits(256);

    pub const MATERIAL_COLOR: Bits = Bits(512);

    const FLAGS: &'static [Flag<Bits>] = &[
        Flag {
            name: "Points",
            value: Bits::POINTS,
        },
        Flag {
            name: "Topology",
            value: Bits::TOPOLOGY,
        },
        Flag {
            name: "Color",
            value: Bits::COLOR,
        },
        Flag {
            name: "Transform",
            value: Bits::TRANSFORM,
        },
        Flag {
            name: "Visibility",
            value: Bits::VISIBILITY,
        },
        Flag {
            name: "Purpose",
            value: Bits::PURPOSE,
        },
        Flag {
            name: "Binding",
            value: Bits::BINDING,
        },
        Flag {
            name: "Instancer",
            value: Bits::INSTANCER,
        },
        Flag {
            name: "Instances",
            value: Bits::INSTANCES,
        },
        Flag {
            name: "MaterialColor",
            value: Bits::MATERIAL_COLOR,
        },
    ];

    /// The bit of a group.
    pub fn of_group(group: Group) -> Bits
        ensures { number_of result ≡ bit_of_group group }
    {
        match group {
            Group::Points => Bits::POINTS,
            Group::Topology => Bits::TOPOLOGY,
            Group::Color => Bits::COLOR,
            Group::Transform => Bits::TRANSFORM,
            Group::Visibility => Bits::VISIBILITY,
            Group::Purpose => Bits::PURPOSE,
            Group::Binding => Bits::BINDING,
            Group::Instancer => Bits::INSTANCER,
            Group::Instances => Bits::INSTANCES,
            Group::MaterialColor => Bits::MATERIAL_COLOR,
        }
    }

    /// Whether the bit of a group is set.
    pub fn has(self, group: Group) -> bool
        ensures { result ≡ has (number_of self) group }
    {
        self.contains(Bits::of_group(group))
    }

    /// The sum of the bits' numbers.
    pub fn number(&self) -> u32
        ensures { result ≡ number_of self.now }
    {
        self.0
    }
}

impl Flags for Bits {
    ghost use Rattle.std.specs.Prelude.{⊤};
    ghost use Rattle.hd_dirty.specs.Bits.{number_of, flag_table};

    type Bits = u32;

    ghost exact = { ⊤ };

    ghost table = { flag_table };

    ghost set_of = { number_of };

    fn flags<'a>() -> &'a [Flag<Bits>] {
        Bits::FLAGS
    }

    fn bits(&self) -> u32 {
        self.0
    }

    fn from_bits_retain(bits: u32) -> Bits {
        Bits(bits)
    }
}
