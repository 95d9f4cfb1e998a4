// What forms mean that bind names.
ghost use Rattle.std.specs.Prelude.{◌≡◌, ◌++◌, [], ◌∷◌, Ok, Some, None, OnOk};
ghost use Rattle.std.specs.Option.{option_copied};
ghost use Rattle.cat_names.specs.Found.{Tells, and_then};
ghost use Rattle.cat_names.specs.Compound.{match_over};
ghost use Rattle.cat_names.specs.Forms.{bound, combine_of, each_of};
ghost use Rattle.cat_names.specs.Meaning.{arm_meant, meant};
ghost use Rattle.cat_names.specs.Operations.{as_expected};
ghost use Rattle.cat_names.specs.Parts.{all_arms, arm_of, arms_of};
ghost use Rattle.cat_check_forms.specs.Tabled.{IsTabled, names_at};
ghost use Rattle.cat_check_forms.specs.Taken.{element_bound, with_local};
ghost use Rattle.cat_check_exprs.specs.inside.Chains.{behind, paired};

use crate::locals::unbind;
use crate::parted::{alone, parted};
use crate::walk::{infer_two, resolve};
use cat_check_forms::{
    Here, arm_pattern, combine, each, element_local, matched, matched_type, start_local,
};
use cat_check_operators::{Resolved, as_expected};
use cat_names::{Fault, Local, Locals, Refusal};
use cat_pos::Pos;
use cat_scope::{Arm as Body, Arms as Bodies};
use cat_tree::{Accumulation, Each, Name, Node, SurfaceArm, SurfaceArms};
use cat_value::Ty;

/// An expression under one more bound name.
#[cycle(walk)]
pub fn infer_under(
    here: &Here,
    local: Local,
    body: &Node,
    locals: &mut Locals,
    expected: Option<&Ty>,
) -> Result<Resolved, Refusal>
    requires { IsTabled here.now }
    ensures told { Tells result
        (meant (names_at here.now) body.now (locals.old ++ local ∷ []) (option_copied expected.entry)) }
    ensures kept { OnOk result (locals.new ≡ locals.old) }
{
    locals.push(local)?;
    let body = resolve(here, body, locals, expected)?;
    unbind(locals);
    Ok(body)
}

#[cycle(walk)]
pub fn infer_match(
    here: &Here,
    place: Pos,
    tested: &Node,
    arms: &SurfaceArms,
    locals: &mut Locals,
    expected: Option<&Ty>,
) -> Result<Resolved, Refusal>
    requires { IsTabled here.now }
    ensures told { Tells result (and_then (meant (names_at here.now) tested.now locals.old None)
        (match_over (arm_meant (names_at here.now)) (names_at here.now) place arms.now locals.old
        (option_copied expected.entry))) }
    ensures kept { OnOk result (locals.new ≡ locals.old) }
{
    let tested = resolve(here, tested, locals, None)?;
    let number = matched_type(place, &tested)?;
    let (arms, ty) = infer_arms(here, place, number, arms, locals, expected)?;
    matched(here, place, tested, number, arms, ty)
}

/// The arms of a match at a position for the enumeration of a number: those behind the first have its type.
#[cycle(walk)]
#[tactic(auto, using(crate::proofs::Chains::all_arms))]
pub fn infer_arms(
    here: &Here,
    place: Pos,
    enumeration: u32,
    arms: &SurfaceArms,
    locals: &mut Locals,
    expected: Option<&Ty>,
) -> Result<(Bodies, Ty), Refusal>
    requires { IsTabled here.now }
    ensures told { Tells result
        (arms_of (arm_meant (names_at here.now)) (names_at here.now) place enumeration
        arms.now locals.old (option_copied expected.entry)) }
    ensures kept { OnOk result (locals.new ≡ locals.old) }
{
    let Some((first, rest)) = parted(arms) else {
        return Err(Refusal::Refused(Fault::MatchCases(place)));
    };
    let (first, ty) = infer_arm(here, place, enumeration, first, locals, expected)?;
    let made = alone(here.alloc, first)?;
    let arms = infer_more_arms(here, place, enumeration, rest, locals, &ty, made)?;
    Ok((arms, ty))
}

/// Arms of that type, behind those that are made.
#[cycle(walk)]
pub fn infer_more_arms(
    here: &Here,
    place: Pos,
    enumeration: u32,
    arms: &[SurfaceArm],
    locals: &mut Locals,
    ty: &Ty,
    made: Bodies,
) -> Result<Bodies, Refusal>
    requires { IsTabled here.now }
    ensures told { Tells result
        (behind made (all_arms (arm_meant (names_at here.now)) (names_at here.now) place enumeration
        arms.now locals.old ty.now)) }
    ensures kept { OnOk result (locals.new ≡ locals.old) }
{
    let mut made = made;
    for arm in arms {
        let (arm, _) = infer_arm(here, place, enumeration, arm, locals, Some(ty))?;
        made.push(arm)?;
    }
    Ok(made)
}

#[cycle(walk)]
#[tactic(auto, using(crate::proofs::Chains::arms))]
pub fn infer_arm(
    here: &Here,
    place: Pos,
    enumeration: u32,
    arm: &SurfaceArm,
    locals: &mut Locals,
    expected: Option<&Ty>,
) -> Result<(Body, Ty), Refusal>
    requires { IsTabled here.now }
    ensures told { Tells result
        (arm_of (names_at here.now) place enumeration (arm_meant (names_at here.now) arm.now) locals.old
        (option_copied expected.entry)) }
    ensures kept { OnOk result (locals.new ≡ locals.old) }
{
    let (pattern, local) = arm_pattern(here, place, enumeration, &arm.pattern)?;
    let body = infer_body(here, local, &arm.body, locals, expected)?;
    let (body, ty) = body.into_parts();
    let body = body.into_inner();
    Ok((Body { pattern, body }, ty))
}

/// The body of an arm, under the name that the arm binds.
#[cycle(walk)]
pub fn infer_body(
    here: &Here,
    local: Option<Local>,
    body: &Node,
    locals: &mut Locals,
    expected: Option<&Ty>,
) -> Result<Resolved, Refusal>
    requires { IsTabled here.now }
    ensures told { Tells result
        (meant (names_at here.now) body.now (with_local locals.old local) (option_copied expected.entry)) }
    ensures kept { OnOk result (locals.new ≡ locals.old) }
{
    match local {
        Some(local) => infer_under(here, local, body, locals, expected),
        None => resolve(here, body, locals, expected),
    }
}

/// A form that goes over a list.
#[cycle(walk)]
pub fn infer_each(
    here: &Here,
    form: Each,
    place: Pos,
    name: &Name,
    list: &Node,
    body: &Node,
    locals: &mut Locals,
    expected: Option<&Ty>,
) -> Result<Resolved, Refusal>
    requires { IsTabled here.now }
    ensures told { Tells result (as_expected (option_copied expected.entry)
        (and_then (meant (names_at here.now) list.now locals.old None) (λ l. and_then (element_bound place name.now l)
        (λ local. and_then (meant (names_at here.now) body.now (locals.old ++ local ∷ []) None)
        (each_of (names_at here.now) form place l))))) }
    ensures kept { OnOk result (locals.new ≡ locals.old) }
{
    let list = resolve(here, list, locals, None)?;
    let local = element_local(here.alloc, place, name, &list)?;
    let body = infer_under(here, local, body, locals, None)?;
    let found = each(here, form, place, list, body)?;
    as_expected(expected, found)
}

/// `combine`: its names are those of an element and of what was combined before.
#[cycle(walk)]
pub fn infer_combine(
    here: &Here,
    words: &Accumulation,
    list: &Node,
    start: &Node,
    body: &Node,
    locals: &mut Locals,
    expected: Option<&Ty>,
) -> Result<Resolved, Refusal>
    requires { IsTabled here.now }
    ensures told { Tells result (as_expected (option_copied expected.entry)
        (and_then (paired (meant (names_at here.now) list.now locals.old None) (meant (names_at here.now) start.now
        locals.old None)) (λ x. and_then (element_bound words.now.pos words.now.element x.0)
        (λ local. and_then (meant (names_at here.now) body.now
        (locals.old ++ local ∷ [] ++ bound words.now.sum x.1.ty ∷ []) (Some x.1.ty))
        (combine_of words.now.pos x.0 x.1))))) }
    ensures kept { OnOk result (locals.new ≡ locals.old) }
{
    let (list, start) = infer_two(here, list, start, locals)?;
    let local = element_local(here.alloc, words.pos, &words.element, &list)?;
    let total = start_local(here.alloc, &words.sum, &start)?;
    let body = infer_under_two(here, local, total, body, locals, start.ty())?;
    let found = combine(here.alloc, words.pos, list, start, body)?;
    as_expected(expected, found)
}

/// An expression under two more bound names.
#[cycle(walk)]
pub fn infer_under_two(
    here: &Here,
    outer: Local,
    inner: Local,
    body: &Node,
    locals: &mut Locals,
    expected: &Ty,
) -> Result<Resolved, Refusal>
    requires { IsTabled here.now }
    ensures told { Tells result
        (meant (names_at here.now) body.now (locals.old ++ outer ∷ [] ++ inner ∷ []) (Some expected.now)) }
    ensures kept { OnOk result (locals.new ≡ locals.old) }
{
    locals.push(outer)?;
    let body = infer_under(here, inner, body, locals, Some(expected))?;
    unbind(locals);
    Ok(body)
}
