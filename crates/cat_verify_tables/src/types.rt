// Types that lines spell.
ghost use Rattle.std.specs.Prelude.{◌≡◌, ◌++◌, nat_lt, if◌then◌else◌, ℕ, List, None};
ghost use Rattle.std.specs.Prelude.{codes, MatchOption, IfOk, IfErr};
ghost use Rattle.std.specs.Option.{option_map};
ghost use Rattle.cat_value.specs.Declarations.{highest};
ghost use Rattle.cat_verify_tables.specs.inside.TypeNaming.{flat_type, named_in, base_of, lists_of};
ghost use Rattle.cat_verify_tables.specs.inside.TypeNaming.{IsBehind, IsTyped};
ghost use Rattle.cat_verify_tables.specs.inside.Causes.{AtLine};
ghost use Rattle.cat_verify_tables.specs.inside.PartWords.{Spells, SpellsNone};

use crate::TableRefusal;
use cat_check_names::NameTable;
use cat_pos::{Boxed, Text};
use cat_value::{HIGHEST, Ty};
use std::alloc::{AllocError, Global};

/// A type without parts, by its word.
#[tactic(auto, unfolding(crate::specs::inside::TypeNaming::flat_type))]
fn flat_type(word: &str) -> Option<Ty>
    ensures { result ≡ flat_type word.now }
{
    match word {
        "boolean" => Some(Ty::Boolean),
        "integer" => Some(Ty::Integer),
        "decimal" => Some(Ty::Decimal),
        "money" => Some(Ty::Money),
        "date" => Some(Ty::Date),
        "duration" => Some(Ty::Duration),
        _ => None,
    }
}

/// So many lists of a type.
fn in_lists(alloc: Global, lists: u32, ty: Ty) -> Result<Ty, AllocError>
    ensures { IfOk result (λ whole. whole ≡ lists_of lists ty) }
{
    let mut whole = ty;
    for _ in 0..lists {
        whole = Ty::List(Boxed::new(alloc, whole)?);
    }
    Ok(whole)
}

/// What stands behind `list of`.
fn element_of(text: &str) -> Option<&str>
    ensures { MatchOption result ((rest : List ℕ) → text.now ≡ codes "list of " ++ rest → ⊥)
        (λ rest. text.now ≡ codes "list of " ++ rest.now) }
{
    text.strip_prefix("list of ")
}

/// How many times `list of` stands in front, up to as often as a type may be high, and what stands behind.
pub(crate) fn behind_lists(text: &str) -> (u32, &str)
    ensures { IsBehind text.now result.0 result.1.now }
{
    let mut rest = text;
    for lists in 0..HIGHEST {
        let Some(element) = element_of(rest) else {
            return (lists, rest);
        };
        rest = element;
    }
    (HIGHEST, rest)
}

/// The structures and enumerations by their names: structures are numbered in front of enumerations.
#[derive(Drop)]
pub(crate) struct TypeNames {
    pub numbers: NameTable,
    pub structures: u32,
}

impl TypeNames {
    fn named(&self, name: &Text) -> Option<Ty>
        ensures { result ≡ named_in self.now.numbers self.now.structures name.now }
    {
        let number = self.numbers.number(name)?;
        if number < self.structures {
            return Some(Ty::Structure(number));
        }
        Some(Ty::Enumeration(number - self.structures))
    }

    /// The type of one word.
    fn base(&self, alloc: Global, word: &str) -> Result<Option<Ty>, AllocError>
        ensures { IfOk result (λ ty. ty ≡ base_of self.now.numbers self.now.structures word.now) }
    {
        if let Some(ty) = flat_type(word) {
            return Ok(Some(ty));
        }
        let name = Text::from_str(alloc, word)?;
        Ok(self.named(&name))
    }

    /// So many lists of the type of a word, where these are fewer than a type may be high.
    pub fn in_lists(&self, alloc: Global, lists: u32, base: &str) -> Result<Option<Ty>, AllocError>
        ensures { IfOk result (λ ty. ty ≡ (if nat_lt lists highest then option_map (lists_of lists)
            (base_of self.now.numbers self.now.structures base.now) else None)) }
    {
        if lists >= HIGHEST {
            return Ok(None);
        }
        let Some(ty) = self.base(alloc, base)? else {
            return Ok(None);
        };
        let whole = in_lists(alloc, lists, ty)?;
        Ok(Some(whole))
    }

    /// The type that a text spells, which has no more lists than a type may be high.
    pub fn ty(&self, alloc: Global, text: &str) -> Result<Option<Ty>, AllocError>
        ensures { IfOk result (IsTyped self.now.numbers self.now.structures text.now) }
    {
        let (lists, base) = behind_lists(text);
        self.in_lists(alloc, lists, base)
    }

    /// The same, or a refusal of the line.
    pub fn needed_ty(&self, alloc: Global, text: &str, line: usize) -> Result<Ty, TableRefusal>
        ensures spelled { IfOk result (Spells self.now text.now) }
        ensures cause { IfErr result (AtLine line (SpellsNone self.now text.now)) }
    {
        let Some(ty) = self.ty(alloc, text)? else {
            return Err(TableRefusal::BadTable(line));
        };
        Ok(ty)
    }
}
