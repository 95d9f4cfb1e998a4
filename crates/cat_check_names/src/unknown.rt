// Names of expressions that name nothing, and fields that are given twice.
ghost use Rattle.std.specs.Prelude.{◌≡◌, ◌<◌, ◌++◌, [], ◌∷◌, OnOk, length, map, flat_map};
ghost use Rattle.cat_names.specs.Unknown.{unknown_in, in_fields, in_arms, in_reach, bound_by, in_case, in_pattern};
ghost use Rattle.cat_names.specs.Unknown.{in_type, twice};
ghost use Rattle.cat_names.specs.Written.{texts};
ghost use Rattle.cat_check_names.specs.Tabled.{AreTabled, known_at};

use crate::bound::{bind, unbind};
use crate::leaves::{
    add_case, add_out_of_reach, add_pattern, add_scope_name, add_type, add_type_name,
};
use crate::{Faults, NamingContext, Texts, add_repeated};
use cat_tree::{
    CaseName, Name, Node, Nodes, Pattern, SurfaceArm, SurfaceArms, SurfaceFields, Type,
};
use std::alloc::AllocError;

/// The names of an expression that name nothing, and the fields in it that are given twice, under these bound names.
/// Calls nest in proportion to the expression's height.
#[cycle(unknown)]
#[tactic(auto, using(crate::proofs::Added::added))]
pub fn add_unknown(
    here: &NamingContext,
    node: &Node,
    bound: &mut Texts,
    faults: &mut Faults,
) -> Result<(), AllocError>
    requires { AreTabled here.now }
    ensures faults { OnOk result (faults.new ≡ faults.old ++ unknown_in (known_at here.now) node.now bound.old) }
    ensures kept { OnOk result (bound.new ≡ bound.old) }
{
    match node {
        Node::Literal(_, _) => Ok(()),
        Node::Name(name) => add_out_of_reach(here, name, bound, faults),
        Node::Case(case) => add_case(here, case, faults),
        Node::Parens(_, inner) => add_unknown(here, inner.get(), bound, faults),
        Node::Field(base, _) => add_unknown(here, base.get(), bound, faults),
        Node::Prefixed(_, _, operand) => add_unknown(here, operand.get(), bound, faults),
        Node::Sum(_, ty, list) => add_sum(here, ty.get(), list.get(), bound, faults),
        Node::Content(case, content) => add_content(here, case, content.get(), bound, faults),
        Node::Call(name, args) => add_call(here, name.get(), args, bound, faults),
        Node::Binary(_, _, left, right) => {
            add_unknown(here, left.get(), bound, faults)?;
            add_unknown(here, right.get(), bound, faults)
        }
        Node::Test(tested, _, case) => add_test(here, tested.get(), case.get(), bound, faults),
        Node::List(_, elements) => add_all(here, elements, bound, faults),
        Node::Structure(name, fields) => {
            add_type_name(here, name.get(), faults)?;
            add_fields(here, fields, bound, faults)
        }
        Node::ScopeCall(_, name, fields, _) => {
            add_scope_name(here, name.get(), faults)?;
            add_fields(here, fields.get(), bound, faults)
        }
        Node::If(_, test, yes, no) => {
            add_unknown(here, test.get(), bound, faults)?;
            add_unknown(here, yes.get(), bound, faults)?;
            add_unknown(here, no.get(), bound, faults)
        }
        Node::Match(_, tested, arms) => {
            add_unknown(here, tested.get(), bound, faults)?;
            add_arms(here, arms.get(), bound, faults)
        }
        Node::Each(_, _, name, list, body) => {
            add_unknown(here, list.get(), bound, faults)?;
            add_under(here, &[name.get()], body.get(), bound, faults)
        }
        Node::Combine(words, list, start, body) => {
            add_unknown(here, list.get(), bound, faults)?;
            add_unknown(here, start.get(), bound, faults)?;
            let words = words.get();
            add_under(
                here,
                &[&words.element, &words.sum],
                body.get(),
                bound,
                faults,
            )
        }
    }
}

#[cycle(unknown)]
fn add_sum(
    here: &NamingContext,
    ty: &Type,
    list: &Node,
    bound: &mut Texts,
    faults: &mut Faults,
) -> Result<(), AllocError>
    requires { AreTabled here.now }
    ensures faults { OnOk result (faults.new ≡ faults.old ++ in_type (known_at here.now) ty.now
        ++ unknown_in (known_at here.now) list.now bound.old) }
    ensures kept { OnOk result (bound.new ≡ bound.old) }
{
    add_type(here, ty, faults)?;
    add_unknown(here, list, bound, faults)
}

#[cycle(unknown)]
fn add_call(
    here: &NamingContext,
    name: &Name,
    args: &Nodes,
    bound: &mut Texts,
    faults: &mut Faults,
) -> Result<(), AllocError>
    requires { AreTabled here.now }
    ensures faults { OnOk result (faults.new ≡ faults.old ++ in_reach (known_at here.now) name.now bound.old
        ++ flat_map (λ e. unknown_in (known_at here.now) e bound.old) args.now) }
    ensures kept { OnOk result (bound.new ≡ bound.old) }
{
    add_out_of_reach(here, name, bound, faults)?;
    add_all(here, args, bound, faults)
}

#[cycle(unknown)]
fn add_content(
    here: &NamingContext,
    case: &CaseName,
    content: &Node,
    bound: &mut Texts,
    faults: &mut Faults,
) -> Result<(), AllocError>
    requires { AreTabled here.now }
    ensures faults { OnOk result (faults.new ≡ faults.old ++ in_case (known_at here.now) case.now
        ++ unknown_in (known_at here.now) content.now bound.old) }
    ensures kept { OnOk result (bound.new ≡ bound.old) }
{
    add_case(here, case, faults)?;
    add_unknown(here, content, bound, faults)
}

#[cycle(unknown)]
fn add_test(
    here: &NamingContext,
    tested: &Node,
    case: &CaseName,
    bound: &mut Texts,
    faults: &mut Faults,
) -> Result<(), AllocError>
    requires { AreTabled here.now }
    ensures faults { OnOk result (faults.new ≡ faults.old ++ unknown_in (known_at here.now) tested.now bound.old
        ++ in_case (known_at here.now) case.now) }
    ensures kept { OnOk result (bound.new ≡ bound.old) }
{
    add_unknown(here, tested, bound, faults)?;
    add_case(here, case, faults)
}

/// Expressions of a list.
#[cycle(unknown)]
fn add_all(
    here: &NamingContext,
    nodes: &Nodes,
    bound: &mut Texts,
    faults: &mut Faults,
) -> Result<(), AllocError>
    requires { AreTabled here.now }
    ensures faults { OnOk result (faults.new ≡ faults.old
        ++ flat_map (λ e. unknown_in (known_at here.now) e bound.old) nodes.now) }
    ensures kept { OnOk result (bound.new ≡ bound.old) }
{
    for node in nodes.as_slice() {
        add_unknown(here, node, bound, faults)?;
    }
    Ok(())
}

/// An expression under more bound names.
#[cycle(unknown)]
fn add_under(
    here: &NamingContext,
    names: &[&Name],
    body: &Node,
    bound: &mut Texts,
    faults: &mut Faults,
) -> Result<(), AllocError>
    requires { AreTabled here.now }
    ensures faults { OnOk result (faults.new ≡ faults.old
        ++ unknown_in (known_at here.now) body.now (bound.old ++ map (λ w. w.now.text) names.now)) }
    ensures kept { OnOk result (bound.new ≡ bound.old) }
{
    bind(here.alloc, names, bound)?;
    add_unknown(here, body, bound, faults)?;
    unbind(names.len(), bound);
    Ok(())
}

/// The fields of a literal or of a scope call.
#[cycle(unknown)]
fn add_fields(
    here: &NamingContext,
    fields: &SurfaceFields,
    bound: &mut Texts,
    faults: &mut Faults,
) -> Result<(), AllocError>
    requires { AreTabled here.now }
    ensures faults { OnOk result (faults.new ≡ faults.old ++ twice (map (λ f. f.name) fields.now)
        ++ flat_map (λ f. unknown_in (known_at here.now) f.value bound.old) fields.now) }
    ensures kept { OnOk result (bound.new ≡ bound.old) }
{
    add_repeated(here.alloc, fields.as_slice(), faults)?;
    for field in fields.as_slice() {
        add_unknown(here, &field.value, bound, faults)?;
    }
    Ok(())
}

/// An arm of a match.
#[cycle(unknown)]
#[tactic(auto, using(crate::proofs::Added::joining))]
fn add_arm(
    here: &NamingContext,
    arm: &SurfaceArm,
    bound: &mut Texts,
    faults: &mut Faults,
) -> Result<(), AllocError>
    requires { AreTabled here.now }
    ensures faults { OnOk result (faults.new ≡ faults.old ++ (in_pattern (known_at here.now) arm.now.pattern
        ++ unknown_in (known_at here.now) arm.now.body (bound.old ++ bound_by arm.now.pattern))) }
    ensures kept { OnOk result (bound.new ≡ bound.old) }
{
    add_pattern(here, &arm.pattern, faults)?;
    match &arm.pattern {
        Pattern::Case(_, Some(name)) => add_under(here, &[name], &arm.body, bound, faults),
        Pattern::Case(_, None) => add_unknown(here, &arm.body, bound, faults),
        Pattern::Anything => add_unknown(here, &arm.body, bound, faults),
    }
}

/// The arms of a match.
#[cycle(unknown)]
fn add_arms(
    here: &NamingContext,
    arms: &SurfaceArms,
    bound: &mut Texts,
    faults: &mut Faults,
) -> Result<(), AllocError>
    requires { AreTabled here.now }
    ensures faults { OnOk result (faults.new ≡ faults.old ++ flat_map (λ a. in_pattern (known_at here.now) a.pattern
        ++ unknown_in (known_at here.now) a.body (bound.old ++ bound_by a.pattern)) arms.now) }
    ensures kept { OnOk result (bound.new ≡ bound.old) }
{
    for arm in arms.as_slice() {
        add_arm(here, arm, bound, faults)?;
    }
    Ok(())
}
