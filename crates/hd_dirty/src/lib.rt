//! The dirty bits of a prim: which of its groups of values have to be read again.
#![tactic(auto)]

mod bits;
mod kinds;
mod laws;

pub use bits::Bits;
pub use kinds::{all_of, bits_of, groups_of};
pub use laws::{
    bits_are_of_groups_that_are_reached, bits_are_within_all, bits_of_a_union,
    group_below_is_reached, union_has_the_bits_of_both,
};
