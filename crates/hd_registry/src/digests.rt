//! The places of contents by their digests.

ghost use Rattle.std.specs.Prelude.{◌≡◌, ◌≢◌, ℕ, true, not, filter, nat_eq, OnOk};
ghost use Rattle.hd_registry.specs.inner.Indexes.{is_among, is_found};

use std::alloc::{AllocError, Global};
use std::collections::HashMap;

/// Adds a place to those of the digest. Refused, no place is lost.
pub(crate) fn add(
    alloc: Global,
    index: &mut HashMap<u64, Vec<usize>>,
    digest: u64,
    place: usize,
) -> Result<(), AllocError>
    ensures found { OnOk result (is_found index.new digest place ≡ true) }
    ensures others { (d p : ℕ) → is_found index.old d p ≡ true → is_found index.new d p ≡ true }
{
    if let Some(places) = index.get_mut(&digest) {
        places.push(place)?;
        return Ok(());
    }
    let mut places = Vec::new(alloc);
    places.push(place)?;
    let _ = index.insert(digest, places)?;
    Ok(())
}

/// Takes a place from those of the digest.
pub(crate) fn forget(index: &mut HashMap<u64, Vec<usize>>, digest: u64, place: usize)
    ensures { (d p : ℕ) → p ≢ place → is_found index.old d p ≡ true → is_found index.new d p ≡ true }
{
    drop_place(index, digest, place);
    drop_empty(index, digest);
}

fn drop_place(index: &mut HashMap<u64, Vec<usize>>, digest: u64, place: usize)
    ensures { (d p : ℕ) → p ≢ place → is_found index.old d p ≡ true → is_found index.new d p ≡ true }
{
    if let Some(places) = index.get_mut(&digest) {
        drop_from(places, place);
    }
}

fn drop_from(places: &mut Vec<usize>, place: usize)
    ensures { (p : ℕ) → p ≢ place → is_among places.old.items p ≡ true → is_among places.new.items p ≡ true }
{
    retain_others(places, place);
}

fn retain_others(places: &mut Vec<usize>, place: usize)
    ensures { places.new.items ≡ filter (λ kept. not (nat_eq kept place)) places.old.items }
{
    places.retain(move |kept| *kept != place);
}

/// Takes the digest out, where it has no places.
fn drop_empty(index: &mut HashMap<u64, Vec<usize>>, digest: u64)
    ensures { (d p : ℕ) → is_found index.old d p ≡ true → is_found index.new d p ≡ true }
{
    match index.get(&digest) {
        Some(places) if places.is_empty() => {
            let _ = index.remove(&digest);
        }
        _ => {}
    }
}
