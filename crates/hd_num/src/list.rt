//! A list that does not change and is shared by its copies.

ghost use Rattle.std.specs.Prelude.{◌≡◌, ◌↔◌, [], IfOk, IsTrue, length};
ghost use Rattle.std.specs.Cmp.Lexicographic.{pointwise, lists_per, lists_equiv};

use std::alloc::{AllocError, Global};
use std::marker::Model;
use std::sync::Arc;

/// A list of items that never change. A copy shares the items of its source.
#[derive(Drop)]
pub struct List<T> {
    /// `None` for the empty list that was made without memory.
    shared: Option<Arc<Vec<T>>>,
}

impl<T> Model for List<T> {
    ghost use Rattle.std.specs.Prelude.{List};
    ghost use Rattle.std.specs.Coded.{coded_list};
    ghost use Rattle.hd_num.specs.Lists.{shared_items};

    ghost Value = { List T };

    ghost coded = { coded_list T.code };

    ghost view = { λ l. shared_items l.shared };
}

impl<T> List<T> {
    /// The list without items, which takes no memory.
    pub fn empty() -> List<T>
        ensures { result ≡ [] }
    {
        List { shared: None }
    }

    /// The items, in order.
    pub fn items(&self) -> &[T]
        ensures { result.now ≡ self.now }
    {
        match &self.shared {
            Some(items) => items.as_slice(),
            None => &[],
        }
    }

    /// How many items there are.
    pub fn len(&self) -> usize
        ensures { result ≡ length self.now }
    {
        self.items().len()
    }

    /// Whether there are no items.
    pub fn is_empty(&self) -> bool
        ensures { IsTrue result ↔ (self.now ≡ []) }
    {
        self.items().is_empty()
    }
}

impl<T: Drop> List<T> {
    /// A list of these items, in order.
    pub fn of(alloc: Global, items: Vec<T>) -> Result<List<T>, AllocError>
        ensures { IfOk result (λ list. list ≡ items.items) }
    {
        Ok(List {
            shared: Some(Arc::new(alloc, items)?),
        })
    }

    /// A list that shares the items of this one.
    pub fn copy(&self) -> Result<List<T>, AllocError>
        ensures { IfOk result (λ copied. copied ≡ self.now) }
    {
        match &self.shared {
            Some(items) => Ok(List {
                shared: Some(items.clone()?),
            }),
            None => Ok(List::empty()),
        }
    }
}

/// Lists are equal where their items are, in order, also where the lists share no items.
impl<T: PartialEq> PartialEq for List<T> {
    ghost eq = { pointwise T.eq };

    ghost laws = { lists_per T.laws };

    // std does not tell whether two `Arc`s share their value, so the items of a list and of its copy are compared too.
    fn eq(&self, other: &List<T>) -> bool {
        self.items() == other.items()
    }
}

impl<T: Eq> Eq for List<T> {
    ghost laws = { lists_equiv T.Eq.laws };
}
