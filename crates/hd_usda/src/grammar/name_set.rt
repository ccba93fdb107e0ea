//! The names that were seen.

ghost use Rattle.std.specs.Prelude.{◌≡◌, not, IfOk, OnOk};
ghost use Rattle.std.specs.FinSet as set;
ghost use Rattle.hd_usda.specs.reading.Cursor.{Gives};
ghost use Rattle.hd_usda.specs.grammar.NameSet.{new_name};

use hd_layer::{LayerFault, LayerWhy};
use std::alloc::{AllocFailed, Global};
use std::collections::BTreeSet;
use std::marker::Model;

/// A set of names.
#[derive(Drop)]
pub struct NameSet {
    names: BTreeSet<Vec<u8>>,
}

impl Model for NameSet {
    ghost use Rattle.std.specs.Prelude.{map};
    ghost use Rattle.std.specs.Ordering.{nat_cmp};
    ghost use Rattle.std.specs.Cmp.Lexicographic.{slice_cmp};
    ghost use Rattle.std.specs.Coded.{coded_ℕ, coded_list};
    ghost use Rattle.std.specs.FinSet as set;

    ghost Value = { set.FinSet (slice_cmp nat_cmp) };

    ghost coded = { set.code (coded_list coded_ℕ) };

    ghost view = { λ s. set.from_list (map (λ k. k.items) s.names.keys) };
}

impl NameSet {
    pub fn new(alloc: Global) -> Self
        ensures { result ≡ set.empty }
    {
        NameSet {
            names: BTreeSet::new(alloc),
        }
    }

    /// Adds a name, and says whether it is new.
    pub fn add(&mut self, name: Vec<u8>) -> Result<bool, AllocFailed<Vec<u8>>>
        ensures added { IfOk result (λ added. added ≡ not (set.contains self.old name.items)) }
        ensures names { OnOk result (self.new ≡ set.insert self.old name.items) }
    {
        self.names.insert(name)
    }
}

/// Adds a name of this line, which must be none of those seen.
#[tactic(auto, unfolding(crate::specs::grammar::NameSet::new_name))]
pub fn new_name(
    seen: &mut NameSet,
    left_out: bool,
    name: Vec<u8>,
    line: u32,
) -> Result<(), LayerFault>
    ensures { Gives (λ _. seen.new) result (new_name left_out name.items line seen.old) }
{
    if !seen.add(name)? {
        return Err(LayerFault::At {
            line,
            why: LayerWhy::Twice,
        });
    }
    if left_out {
        return Err(LayerFault::At {
            line,
            why: LayerWhy::LeftOut,
        });
    }
    Ok(())
}
