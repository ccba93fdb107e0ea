//! Comparisons, hashes and printing of tokens and paths.

ghost use Rattle.std.specs.Prelude.{Some, nat_eq};
ghost use Rattle.std.specs.Cmp;
ghost use Rattle.std.specs.Cmp.Lexicographic.{pointwise, slice_cmp, nat_list_eq_equiv, nat_list_cmp_total, texts_ties, texts_po};
ghost use Rattle.std.specs.Fmt.{debug_str};
ghost use Rattle.std.specs.Hash as fed;
ghost use Rattle.std.specs.Ordering.{nat_cmp};
ghost use Rattle.std.proofs.Common.{refl, ap};
ghost use Rattle.std.proofs.lemmas.Cmp.{lists_total, lists_equiv};
ghost use Rattle.hd_path.specs.inner.Comparing.{bytes_same, names_same, names_ties, names_po};
ghost use Rattle.hd_path.specs.Paths.{path_text, path_cmp};

use crate::path::Path;
use crate::token::Token;
use std::cmp::Ordering;
use std::fmt;
use std::hash::{Hash, Hasher};

impl PartialEq for Token {
    ghost eq = { pointwise nat_eq };

    ghost laws = { Cmp.partial_equiv_from_equiv nat_list_eq_equiv };

    fn eq(&self, other: &Token) -> bool {
        self.text() == other.text()
    }
}

impl Eq for Token {
    ghost laws = { nat_list_eq_equiv };
}

impl PartialOrd for Token {
    ghost partial_cmp = { λ x y. Some (slice_cmp nat_cmp x y) };

    ghost laws = { texts_po };

    fn partial_cmp(&self, other: &Token) -> Option<Ordering> {
        Some(self.cmp(other))
    }
}

impl Ord for Token {
    ghost cmp = { slice_cmp nat_cmp };

    ghost total = { nat_list_cmp_total };

    ghost matches_partial_cmp = { λ x y. refl };

    ghost matches_eq = { texts_ties };

    fn cmp(&self, other: &Token) -> Ordering {
        self.text().cmp(other.text())
    }
}

impl Hash for Token {
    ghost hash_input = { fed.str };

    ghost respects_eq = { λ x y same. ap fed.str (bytes_same x y same) };

    fn hash<H: Hasher>(&self, state: &mut H) {
        self.text().hash(state);
    }
}

impl fmt::Debug for Token {
    ghost debug_output = { λ token. debug_str token };

    fn fmt<W: fmt::Write>(&self, f: &mut fmt::Formatter<W>) -> fmt::Result {
        fmt::Debug::fmt(&self.text(), f)
    }
}

// The texts of two paths are compared, which gives the order name by name: a slash comes before each byte of a name.

impl PartialEq for Path {
    ghost eq = { pointwise (pointwise nat_eq) };

    ghost laws = { Cmp.partial_equiv_from_equiv (lists_equiv nat_list_eq_equiv) };

    #[tactic(auto, using(crate::proofs::Orders::text_orders))]
    fn eq(&self, other: &Path) -> bool {
        self.is_path();
        other.is_path();
        self.as_text() == other.as_text()
    }
}

impl Eq for Path {
    ghost laws = { lists_equiv nat_list_eq_equiv };
}

impl PartialOrd for Path {
    ghost partial_cmp = { λ p q. Some (path_cmp p q) };

    ghost laws = { names_po };

    fn partial_cmp(&self, other: &Path) -> Option<Ordering> {
        Some(self.cmp(other))
    }
}

impl Ord for Path {
    ghost cmp = { path_cmp };

    ghost total = { lists_total nat_list_cmp_total };

    ghost matches_partial_cmp = { λ p q. refl };

    ghost matches_eq = { names_ties };

    #[tactic(auto, using(crate::proofs::Orders::text_orders))]
    fn cmp(&self, other: &Path) -> Ordering {
        self.is_path();
        other.is_path();
        self.as_text().cmp(other.as_text())
    }
}

impl Hash for Path {
    ghost hash_input = { λ path. fed.str (path_text path) };

    ghost respects_eq = { λ p q same. ap (λ path. fed.str (path_text path)) (names_same p q same) };

    fn hash<H: Hasher>(&self, state: &mut H) {
        self.as_text().hash(state);
    }
}

impl fmt::Debug for Path {
    ghost debug_output = { λ path. debug_str (path_text path) };

    fn fmt<W: fmt::Write>(&self, f: &mut fmt::Formatter<W>) -> fmt::Result {
        fmt::Debug::fmt(&self.as_text(), f)
    }
}
