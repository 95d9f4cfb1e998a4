// What literals, names and cases mean.
ghost use Rattle.std.specs.Prelude.{◌≡◌};
ghost use Rattle.std.specs.Option.{option_copied};
ghost use Rattle.cat_value.specs.Entries.{content_of};
ghost use Rattle.cat_names.specs.Compound.{case_alone};
ghost use Rattle.cat_names.specs.Found.{Tells, and_then};
ghost use Rattle.cat_names.specs.Naming.{case_first, case_found, name_found};
ghost use Rattle.cat_names.specs.Operations.{as_expected, literal_of, literal_written};
ghost use Rattle.cat_check_forms.specs.Tabled.{IsTabled, names_at};

use cat_check_forms::{Here, case, name};
use cat_check_operators::{Resolved, as_expected, literal};
use cat_names::{Locals, Refusal};
use cat_pos::Pos;
use cat_tree::{CaseName, Name, SurfaceLiteral};
use cat_value::Ty;

pub fn infer_literal(
    here: &Here,
    written: SurfaceLiteral,
    place: Pos,
    expected: Option<&Ty>,
) -> Result<Resolved, Refusal>
    ensures { Tells result (as_expected (option_copied expected.entry) (literal_of place (literal_written written))) }
{
    let found = literal(here.alloc, written, place)?;
    as_expected(expected, found)
}

pub fn infer_name(
    here: &Here,
    word: &Name,
    locals: &Locals,
    expected: Option<&Ty>,
) -> Result<Resolved, Refusal>
    requires { IsTabled here.now }
    ensures { Tells result (as_expected (option_copied expected.entry)
        (name_found (names_at here.now) word.now locals.now)) }
{
    let found = name(here, word, locals)?;
    as_expected(expected, found)
}

/// A case without content.
pub fn infer_case(here: &Here, named: &CaseName, expected: Option<&Ty>) -> Result<Resolved, Refusal>
    requires { IsTabled here.now }
    ensures { Tells result
        (as_expected (option_copied expected.entry) (and_then (case_found (names_at here.now) named.now)
        (λ k. case_alone (case_first named.now) k (content_of (names_at here.now).decls k.0 k.1)))) }
{
    let found = case(here, named)?;
    as_expected(expected, found)
}
