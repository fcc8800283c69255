//! Names: short texts of letters, digits and three signs.

ghost use Rattle.std.specs.Prelude.{◌≡◌, true, false, IfSome, IfNone, IfOk};
ghost use Rattle.std.specs.Str.{bytes_eq};
ghost use Rattle.std.specs.Cmp.{partial_order_from_own_ties};
ghost use Rattle.std.specs.Cmp.Rules.{comparing};
ghost use Rattle.std.specs.Ordering.{nat_cmp, as_partial_cmp};
ghost use Rattle.std.specs.Cmp.Lexicographic.{slice_cmp};
ghost use Rattle.std.proofs.lemmas.Cmp.{nat_list_cmp_total};
ghost use Rattle.std.proofs.Common.{rules};
ghost use Rattle.role_order.specs.Names as names;

use crate::NoMemory;
use role_order::is_name;
use std::alloc::Global;
use std::cmp::Ordering;
use std::marker::Model;

/// A text of 1 to `MOST_NAME_BYTES` bytes of `A-Z a-z 0-9 _ . -`, which contracts see as its bytes.
#[derive(Drop)]
pub struct Name {
    text: String,
}

impl Model for Name {
    ghost use Rattle.std.specs.Prelude.{ℕ, List, ◌≡◌, true};
    ghost use Rattle.std.specs.String.{string_bytes};
    ghost use Rattle.role_order.specs.Names.{is_name};

    ghost Value = { List ℕ };

    ghost view = { λ n. string_bytes n.text };

    ghost invariant = { λ n. is_name (string_bytes n.text) ≡ true };
}

impl Name {
    /// The name with this text. None exactly where the text is no name.
    pub fn new(alloc: Global, text: &str) -> Result<Option<Name>, NoMemory>
        ensures text { IfOk result (λ made. IfSome made (λ new. new ≡ text.now)) }
        ensures name { IfOk result (λ made. IfSome made (λ new. names.is_name text.now ≡ true)) }
        ensures none { IfOk result (λ made. IfNone made (names.is_name text.now ≡ false)) }
    {
        if !is_name(text) {
            return Ok(None);
        }
        let text = String::from_str(alloc, text)?;
        Ok(Some(Name { text }))
    }

    /// The text.
    pub fn as_str(&self) -> &str
        ensures text { result.now ≡ self.now }
        ensures name { names.is_name self.now ≡ true }
    {
        self.text.as_str()
    }

    /// A second value of the same name.
    pub fn copy(&self, alloc: Global) -> Result<Name, NoMemory>
        ensures { IfOk result (λ new. new ≡ self.now) }
    {
        let text = String::from_str(alloc, self.text.as_str())?;
        Ok(Name { text })
    }
}

/// Names are equal where their bytes are.
impl PartialEq for Name {
    ghost eq = { bytes_eq };

    ghost laws = { Prim.search (comparing, rules) };

    fn eq(&self, other: &Name) -> bool {
        self.text.as_str() == other.text.as_str()
    }
}

impl Eq for Name {
    ghost laws = { Prim.search (comparing, rules) };
}

/// Names are ordered as their bytes.
impl Ord for Name {
    ghost cmp = { slice_cmp nat_cmp };

    ghost total = { nat_list_cmp_total };

    ghost matches_partial_cmp = { Prim.search (comparing, rules) };

    ghost matches_eq = { Prim.search (comparing, rules) };

    fn cmp(&self, other: &Name) -> Ordering {
        self.text.as_bytes().cmp(other.text.as_bytes())
    }
}

impl PartialOrd for Name {
    ghost partial_cmp = { as_partial_cmp (slice_cmp nat_cmp) };

    ghost laws = { partial_order_from_own_ties (Prim.search (comparing, rules)) (Prim.search (comparing, rules)) };

    fn partial_cmp(&self, other: &Name) -> Option<Ordering> {
        Some(self.cmp(other))
    }
}
