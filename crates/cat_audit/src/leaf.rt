// The finding of one region.
ghost use Rattle.std.specs.Prelude.{◌≡◌, ◌<◌, Some, IsSome, IsTrue, IfOk, IfSome, length, slice_get};
ghost use Rattle.cat_region.specs.Regions.{IsInhabited};
ghost use Rattle.cat_guard.specs.Judged.{judged_in};
ghost use Rattle.cat_guard.specs.Tables.{TablesScope};
ghost use Rattle.cat_guard.specs.Valuations.{dims_of};
ghost use Rattle.cat_guard.specs.Judgements.{is_bad};
ghost use Rattle.cat_machine.specs.ForPrograms.{IsCodeFor};
ghost use Rattle.cat_audit.specs.Findings.{finding_of, finding_in};

use crate::cause::undecided_at;
use crate::finding::Finding;
use cat_audit_sound::{bad_regions_of_free_terms_fail, input_of};
use cat_code::Code;
use cat_guard::Table;
use cat_machine::execute_clean;
use cat_pool::Pool;
use cat_pos::Pos;
use cat_region::{Region, regions_are_sound};
use cat_scope::Program;
use cat_value::{Input, Outcome};
use std::alloc::{AllocError, Global};

/// What an outcome says that an input has.
fn finding_of(at: Option<Pos>, input: Input, outcome: Outcome) -> Finding
    requires { IsSome (finding_of at input outcome) }
    ensures { finding_of at input outcome ≡ Some result }
{
    match outcome {
        Outcome::Conflict(target, positions) => {
            Finding::Found(Outcome::Conflict(target, positions), input)
        }
        Outcome::NoValue(target, pos) => Finding::Found(Outcome::NoValue(target, pos), input),
        Outcome::Fault(kind, pos) => match at {
            None => Finding::Masked(kind, pos, input),
            Some(at) => Finding::Derived(at, input, Outcome::Fault(kind, pos)),
        },
        Outcome::Value(outputs) => match at {
            None => unreachable!(),
            Some(at) => Finding::Derived(at, input, Outcome::Value(outputs)),
        },
    }
}

/// What a run on the input of a bad region says of the target. It costs that run and the making of its input.
pub(crate) fn finding_in(
    alloc: Global,
    program: &Program,
    code: &Code,
    pool: &mut Pool,
    table: &Table,
    target: u32,
    region: Region,
) -> Result<Finding, AllocError>
    requires tabled { TablesScope program.now table.now.scope table.now }
    requires code { ∥ IsCodeFor program.now code.now ∥₁ }
    requires target { target < length table.now.targets }
    requires dims { region.dims ≡ dims_of table.now.terms }
    requires inhabited { IsInhabited region }
    requires bad { IfSome (slice_get table.now.targets target)
        (λ t. IsTrue (is_bad t.may_be_empty (judged_in table.now.atoms region t))) }
    ensures { IfSome (slice_get table.now.targets target)
        (λ t. IfOk result (λ found. finding_in program.now table.now t region ≡ Some found)) }
{
    bad_regions_of_free_terms_fail(program, table);
    regions_are_sound(&region);
    let input = input_of(alloc, table, program.decls(), &region)?;
    let outcome = execute_clean(alloc, code, table.scope, &input, pool)?;
    let at = undecided_at(table, target, region);
    Ok(finding_of(at, input, outcome))
}
