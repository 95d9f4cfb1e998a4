// Where an expression stands.
ghost use Rattle.std.specs.Prelude.{◌≡◌};
ghost use Rattle.cat_lower.specs.Starts as words;

use cat_date::Rounding;
use cat_pos::{NumberLists, Numbers};
use cat_value::{Decls, ItemDecls};
use std::alloc::Global;

/// What expressions of a scope may name.
#[derive(Drop)]
pub struct LoweringScene<'a> {
    pub alloc: Global,
    pub decls: &'a Decls,
    pub items: &'a ItemDecls,
    pub rounding: Rounding,
    /// How many functions of scopes stand in front of those of the scope.
    pub functions: u32,
    /// How many definitions do.
    pub definitions: u32,
    /// For each enumeration how many cases stand in front of its own.
    pub case_starts: &'a Numbers,
    /// For each item how many functions of the scope stand in front of it.
    pub function_starts: &'a Numbers,
    /// For each scope the numbers of its outputs.
    pub outputs: &'a NumberLists,
    pub ghost cases_counted: { case_starts.now ≡ words.case_starts 0 decls.now.enumerations },
    pub ghost functions_counted: { function_starts.now ≡ words.function_starts 0 items.now },
    pub ghost outputs_listed: { outputs.now ≡ words.outputs_of_each decls.now.scopes },
}

/// What the tables of a scene hold.
pub fn tables_are_made(here: &LoweringScene)
    ensures cases { here.now.case_starts.now ≡ words.case_starts 0 here.now.decls.now.enumerations }
    ensures functions { here.now.function_starts.now ≡ words.function_starts 0 here.now.items.now }
    ensures outputs { here.now.outputs.now ≡ words.outputs_of_each here.now.decls.now.scopes }
{}
