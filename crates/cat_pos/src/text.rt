// A text that contracts see as its bytes.
ghost use Rattle.std.specs.Prelude.{◌≡◌, ◌↔◌, ℕ, List, IfOk, IsTrue, Some, refl, string_bytes};
ghost use Rattle.std.proofs.Common.{rules};
ghost use Rattle.std.specs.Hash as fed;
ghost use Rattle.std.specs.Cmp.Rules.{comparing, hashing};
ghost use Rattle.std.specs.Cmp as Cmp;
ghost use Rattle.std.specs.Cmp.Lexicographic.{nat_list_eq_equiv, nat_list_cmp_total, texts_ties, texts_po, slice_cmp};
ghost use Rattle.std.specs.Ordering.{nat_cmp};
ghost use Rattle.std.specs.Str.{bytes_eq};

use crate::Shared;
use std::alloc::{AllocError, Global};
use std::cmp::Ordering;
use std::hash::{Hash, Hasher};
use std::marker::Model;

/// A text that contracts see as the list of its bytes. Copies share the bytes.
#[derive(Debug, Drop)]
pub struct Text {
    text: Shared<String>,
}

impl Model for Text {
    ghost use Rattle.std.specs.Prelude.{ℕ, List, string_bytes};

    ghost Value = { List ℕ };

    ghost view = { λ t. string_bytes t.text };
}

impl Text {
    pub fn from_string(alloc: Global, text: String) -> Result<Text, AllocError>
        ensures { IfOk result (λ t. t ≡ string_bytes text) }
    {
        let text = Shared::new(alloc, text)?;
        Ok(Text { text })
    }

    pub fn from_str(alloc: Global, text: &str) -> Result<Text, AllocError>
        ensures { IfOk result (λ t. t ≡ text.now) }
    {
        let text = String::from_str(alloc, text)?;
        Text::from_string(alloc, text)
    }

    pub fn as_str(&self) -> &str
        ensures { result.now ≡ self.now }
    {
        self.text.get().as_str()
    }

    /// A text that shares the bytes of this one.
    pub fn copy(&self) -> Result<Text, AllocError>
        ensures { IfOk result (λ t. t ≡ self.now) }
    {
        let text = self.text.copy()?;
        Ok(Text { text })
    }

    /// Whether the two texts have the same bytes.
    pub fn is(&self, other: &str) -> bool
        ensures { IsTrue result ↔ (self.now ≡ other.now) }
    {
        self.as_str() == other
    }
}

impl PartialEq for Text {
    ghost eq = { bytes_eq };

    ghost laws = { Cmp.partial_equiv_from_equiv nat_list_eq_equiv };

    fn eq(&self, other: &Text) -> bool {
        self.as_str() == other.as_str()
    }
}

impl Eq for Text {
    ghost laws = { nat_list_eq_equiv };
}

impl PartialOrd for Text {
    ghost partial_cmp = { λ x y. Some (slice_cmp nat_cmp x y) };

    ghost laws = { texts_po };

    fn partial_cmp(&self, other: &Text) -> Option<Ordering> {
        Some(self.cmp(other))
    }
}

impl Ord for Text {
    ghost cmp = { slice_cmp nat_cmp };

    ghost total = { nat_list_cmp_total };

    ghost matches_partial_cmp = { λ x y. refl };

    ghost matches_eq = { λ x y. texts_ties x y };

    fn cmp(&self, other: &Text) -> Ordering {
        self.as_str().cmp(other.as_str())
    }
}

impl Hash for Text {
    ghost hash_input = { λ t. fed.str t };

    ghost respects_eq = { Prim.search (hashing, rules) };

    fn hash<H: Hasher>(&self, state: &mut H) {
        self.as_str().hash(state);
    }
}
