//! A tracker of dirty bits by path.

ghost use Rattle.std.specs.BTreeMap as tree;
ghost use Rattle.std.specs.Prelude.{◌≡◌, if◌then◌else◌, Some, OnOk, OnErr, IfOk, IsTrue, ◌↔◌};
ghost use Rattle.std.specs.List.{list_all};
ghost use Rattle.std.specs.Option.{option_map};
ghost use Rattle.std.specs.FinMap as map;
ghost use Rattle.std.specs.FinMap.{get};
ghost use Rattle.std.specs.Map.Iter.{ShowsInOrder, deref_pair};
ghost use Rattle.hd_path.specs.Paths as paths;
ghost use Rattle.hd_path.specs.Paths.{path_cmp};
ghost use Rattle.hd_dirty.specs.Bits.{number_of};
ghost use Rattle.hd_scene.specs.Tells.{is_same_path};
ghost use Rattle.hd_scene.specs.declared.notice.Notice.TheVariants.{Added, Removed, Dirtied};
ghost use Rattle.hd_tracker.specs.Tracks.{without_bits, bits_in, marked_by, tracked_by, tracked_after};
ghost use Rattle.hd_tracker.specs.Laws.{NoneRenames};
ghost use Rattle.hd_tracker.specs.inner.Values.{is_of_values};

use crate::below::remove_below;
use bitflags::Flags;
use hd_dirty::{Bits, all_of, bits_of};
use hd_path::{Path, Token};
use hd_scene::Notice;
use hd_value::LocatorSet;
use std::alloc::{AllocError, Global};
use std::collections::BTreeMap;
use std::collections::btree_map::Iter;
use std::marker::Model;

/// What is kept of a prim: its kind, and which of its bits are dirty.
#[derive(Drop)]
pub struct Tracked {
    pub kind: Token,
    pub bits: Bits,
}

impl Tracked {
    /// An equal one, which shares the text of the kind.
    pub fn copy(&self) -> Result<Tracked, AllocError>
        ensures { IfOk result (λ copied. copied ≡ self.now) }
    {
        Ok(Tracked {
            kind: self.kind.copy()?,
            bits: self.bits,
        })
    }
}

/// The dirty bits of prims by path. Only prims of a kind that has bits are kept.
#[derive(Drop)]
pub struct Tracker {
    kept: BTreeMap<Path, Tracked>,
}

impl Model for Tracker {
    ghost use Rattle.std.specs.FinMap.{from_entries};
    ghost use Rattle.hd_tracker.specs.Tracks.{Tracks, tracks_code};

    ghost Value = { Tracks };

    ghost coded = { tracks_code };

    ghost view = { λ tracker. from_entries tracker.kept.entries };
}

impl Tracker {
    /// The tracker that keeps nothing, which takes no memory.
    pub fn new(alloc: Global) -> Tracker
        ensures { result ≡ map.empty }
    {
        Tracker {
            kept: BTreeMap::new(alloc),
        }
    }

    /// A prim of this kind is new at the path: all its bits are dirty. Of a kind without bits the path is kept no longer.
    /// Refused it changes nothing.
    pub fn inserted(&mut self, path: &Path, kind: &Token) -> Result<(), AllocError>
        ensures ok { OnOk result ((p : paths.Path) → get self.new p ≡ tracked_by (Added path.now kind.now) p (get self.old p)) }
        ensures err { OnErr result (self.new ≡ self.old) }
    {
        let bits = all_of(kind);
        if bits.is_empty() {
            let _ = self.kept.remove(path);
            return Ok(());
        }
        let key = path.copy()?;
        let kind = kind.copy()?;
        self.kept.insert(key, Tracked { kind, bits })?;
        Ok(())
    }

    /// The path and all below it are kept no longer.
    pub fn removed(&mut self, path: &Path)
        ensures { (p : paths.Path) → get self.new p ≡ tracked_by (Removed path.now) p (get self.old p) }
    {
        remove_below(&mut self.kept, path);
    }

    /// The bits are dirty, besides those that were. No effect on a path that is not kept.
    pub fn mark(&mut self, path: &Path, bits: Bits)
        ensures { (p : paths.Path) → get self.new p ≡ marked_by path.now (number_of bits) p (get self.old p) }
    {
        if let Some(tracked) = self.kept.get_mut(path) {
            tracked.bits = tracked.bits.union(bits);
        }
    }

    /// The dirty bits of a path: none exactly where it is not kept or clean.
    pub fn bits(&self, path: &Path) -> Bits
        ensures { number_of result ≡ bits_in (get self.now path.now) }
    {
        match self.kept.get(path) {
            Some(tracked) => tracked.bits,
            None => Bits::empty(),
        }
    }

    /// No bits are dirty any more. The paths stay.
    pub fn clean(&mut self)
        ensures { (p : paths.Path) → get self.new p ≡ option_map without_bits (get self.old p) }
    {
        self.kept
            .retain(|_path: &Path, tracked: &mut Tracked| -> bool {
                tracked.bits = Bits::empty();
                true
            });
    }

    /// How many paths are kept.
    pub fn len(&self) -> usize
        ensures { result ≡ map.len self.now }
    {
        self.kept.len()
    }

    /// Whether no path is kept.
    pub fn is_empty(&self) -> bool
        ensures { IsTrue result ↔ (self.now ≡ map.empty) }
    {
        self.len() == 0
    }

    /// The kept paths in path order, each with its kind and its bits.
    pub fn entries(&self) -> Iter<'_, Path, Tracked>
        ensures all { result ≡ map.entries self.now }
        ensures order { ShowsInOrder (deref_pair {K = paths.Path} {X = Tracked}) }
    {
        self.kept.iter()
    }

    /// What the notices tell, in order. Refused it changes nothing.
    pub fn take(&mut self, alloc: Global, notices: &[Notice]) -> Result<(), AllocError>
        requires { NoneRenames notices.now }
        ensures ok { OnOk result ((p : paths.Path) → get self.new p ≡ tracked_after notices.now p (get self.old p)) }
        ensures err { OnErr result (self.new ≡ self.old) }
    {
        if are_of_values(notices) {
            self.take_values(notices);
            return Ok(());
        }
        let mut next = self.copy(alloc)?;
        for notice in notices {
            next.take_one(notice)?;
        }
        *self = next;
        Ok(())
    }

    /// What notices of values tell, in order, which takes no memory.
    fn take_values(&mut self, notices: &[Notice])
        requires { IsTrue (list_all is_of_values notices.now) }
        ensures { (p : paths.Path) → get self.new p ≡ tracked_after notices.now p (get self.old p) }
    {
        for notice in notices {
            self.take_value(notice);
        }
    }

    fn take_value(&mut self, notice: &Notice)
        requires { IsTrue (is_of_values notice.now) }
        ensures { (p : paths.Path) → get self.new p ≡ tracked_by notice.now p (get self.old p) }
    {
        match notice {
            Notice::Dirtied(path, set) => self.dirtied(path, set),
            _ => {}
        }
    }

    fn take_one(&mut self, notice: &Notice) -> Result<(), AllocError>
        ensures { OnOk result ((p : paths.Path) → get self.new p ≡ tracked_by notice.now p (get self.old p)) }
    {
        match notice {
            Notice::Added(path, kind) => self.inserted(path, kind),
            Notice::Removed(path) => {
                self.removed(path);
                Ok(())
            }
            Notice::Dirtied(path, set) => {
                self.dirtied(path, set);
                Ok(())
            }
            Notice::Renamed(_, _) => Ok(()),
        }
    }

    /// The bits that the locators of a set reach are dirty, besides those that were.
    fn dirtied(&mut self, path: &Path, set: &LocatorSet)
        ensures { (p : paths.Path) → get self.new p ≡ tracked_by (Dirtied path.now set.now) p (get self.old p) }
    {
        if let Some(tracked) = self.kept.get_mut(path) {
            tracked.bits = tracked.bits.union(bits_of(&tracked.kind, set));
        }
    }

    /// An equal tracker.
    fn copy(&self, alloc: Global) -> Result<Tracker, AllocError>
        ensures { IfOk result (λ copied. copied ≡ self.now) }
    {
        let mut kept = BTreeMap::new(alloc);
        for (path, tracked) in &self.kept {
            put_copy(&mut kept, path, tracked)?;
        }
        Ok(Tracker { kept })
    }
}

/// Puts what is kept of a path in place of what was there.
fn put_copy(
    kept: &mut BTreeMap<Path, Tracked>,
    path: &Path,
    tracked: &Tracked,
) -> Result<(), AllocError>
    ensures { OnOk result ((p : paths.Path) → tree.get path_cmp kept.new p ≡ (if is_same_path path.now p then Some tracked.now else tree.get path_cmp kept.old p)) }
{
    kept.insert(path.copy()?, tracked.copy()?)?;
    Ok(())
}

/// Whether each notice is of values.
fn are_of_values(notices: &[Notice]) -> bool
    ensures { result ≡ list_all is_of_values notices.now }
{
    for notice in notices {
        if !is_of_values(notice) {
            return false;
        }
    }
    true
}

fn is_of_values(notice: &Notice) -> bool
    ensures { result ≡ is_of_values notice.now }
{
    matches!(notice, Notice::Dirtied(_, _))
}
