// What expressions mean: a function a form.
ghost use Rattle.std.specs.Prelude.{◌≡◌, Ok, None, OnOk};
ghost use Rattle.std.specs.Option.{option_copied};
ghost use Rattle.cat_value.specs.Entries.{content_of};
ghost use Rattle.cat_tree.specs.declared.expression.Node.TheViews.{out-Node};
ghost use Rattle.cat_names.specs.Found.{Tells, and_then, both};
ghost use Rattle.cat_names.specs.Compound.{branches_of};
ghost use Rattle.cat_names.specs.Forms.{if_of, test_of};
ghost use Rattle.cat_names.specs.Lookup.{type_found, type_names};
ghost use Rattle.cat_names.specs.Meaning.{meant, name_alone, starting};
ghost use Rattle.cat_names.specs.Naming.{called_scope, case_first, case_found};
ghost use Rattle.cat_names.specs.Operations.{as_expected, binary_of, prefixed_of, sum_of};
ghost use Rattle.cat_check_forms.specs.Tabled.{IsTabled, names_at};
ghost use Rattle.cat_check_forms.specs.Taken.{cut, output_found, some_content, with_content};
ghost use Rattle.cat_check_exprs.specs.inside.Chains.{or_field, paired};

use crate::binders::{infer_combine, infer_each, infer_match};
use crate::leaves::{infer_case, infer_literal, infer_name};
use crate::lists::{infer_call, infer_list, infer_scope_call, infer_structure};
use cat_check_forms::{
    Here, case_first, case_named, case_with, choice, content_type, field, output, sum_type, test,
};
use cat_check_operators::{Resolved, as_expected, binary, prefixed, sum};
use cat_names::{Locals, Refusal};
use cat_pos::Pos;
use cat_tree::{CaseName, Name, Node, Operator, Prefix, Type};
use cat_value::Ty;

/// What an expression means: exactly that, or a fault that stands in it.
#[cycle(walk)]
#[tactic(auto, using(crate::proofs::Chains::chains))]
pub fn resolve(
    here: &Here,
    node: &Node,
    locals: &mut Locals,
    expected: Option<&Ty>,
) -> Result<Resolved, Refusal>
    requires { IsTabled here.now }
    ensures told { Tells result (meant (names_at here.now) node.now locals.old (option_copied expected.entry)) }
    ensures kept { OnOk result (locals.new ≡ locals.old) }
{
    match node {
        Node::Literal(written, place) => infer_literal(here, *written, *place, expected),
        Node::Name(name) => infer_name(here, name, locals, expected),
        Node::Case(case) => infer_case(here, case, expected),
        Node::Parens(place, inner) => infer_inside(here, *place, inner.get(), locals, expected),
        Node::Field(base, name) => infer_field(here, base.get(), name, locals, expected),
        Node::Prefixed(prefix, place, operand) => {
            infer_prefixed(here, *prefix, *place, operand.get(), locals, expected)
        }
        Node::Sum(place, ty, list) => infer_sum(
            here,
            *place,
            ty.get(),
            list.get(),
            locals,
            expected,
        ),
        Node::Content(case, content) => {
            infer_content(here, case, content.get(), locals, expected)
        }
        Node::Call(name, args) => infer_call(here, name.get(), args, locals, expected),
        Node::Binary(operator, place, left, right) => {
            infer_binary(
                here,
                *operator,
                *place,
                left.get(),
                right.get(),
                locals,
                expected,
            )
        }
        Node::Test(tested, place, case) => {
            infer_test(here, tested.get(), *place, case.get(), locals, expected)
        }
        Node::List(place, nodes) => infer_list(here, *place, nodes, locals, expected),
        Node::Structure(name, fields) => infer_structure(
            here,
            name.get(),
            fields,
            locals,
            expected,
        ),
        Node::ScopeCall(place, name, fields, output) => {
            infer_scope_call(
                here,
                *place,
                name.get(),
                fields.get(),
                output.get(),
                locals,
                expected,
            )
        }
        Node::If(place, test, yes, no) => {
            infer_if(
                here,
                *place,
                test.get(),
                yes.get(),
                no.get(),
                locals,
                expected,
            )
        }
        Node::Match(place, tested, arms) => infer_match(
            here,
            *place,
            tested.get(),
            arms.get(),
            locals,
            expected,
        ),
        Node::Each(form, place, name, list, body) => {
            infer_each(
                here,
                *form,
                *place,
                name.get(),
                list.get(),
                body.get(),
                locals,
                expected,
            )
        }
        Node::Combine(words, list, start, body) => infer_combine(
            here,
            words.get(),
            list.get(),
            start.get(),
            body.get(),
            locals,
            expected,
        ),
    }
}

/// An expression in parentheses.
#[cycle(walk)]
pub fn infer_inside(
    here: &Here,
    place: Pos,
    inner: &Node,
    locals: &mut Locals,
    expected: Option<&Ty>,
) -> Result<Resolved, Refusal>
    requires { IsTabled here.now }
    ensures told { Tells result
        (and_then (meant (names_at here.now) inner.now locals.old
        (option_copied expected.entry)) (λ x. Ok (starting place x))) }
    ensures kept { OnOk result (locals.new ≡ locals.old) }
{
    let inner = resolve(here, inner, locals, expected)?;
    Ok(inner.starting(place))
}

/// A field of a structure, or an output of a called scope.
#[cycle(walk)]
pub fn infer_field(
    here: &Here,
    base: &Node,
    name: &Name,
    locals: &mut Locals,
    expected: Option<&Ty>,
) -> Result<Resolved, Refusal>
    requires { IsTabled here.now }
    ensures told { Tells result (as_expected (option_copied expected.entry)
        (and_then (output_found (names_at here.now) name.now
        (called_scope (names_at here.now) (name_alone (out-Node base.now)) locals.old))
        (or_field (names_at here.now) name.now (meant (names_at here.now) base.now locals.old None)))) }
    ensures kept { OnOk result (locals.new ≡ locals.old) }
{
    if let Some(found) = output(here, base, name, locals)? {
        return as_expected(expected, found);
    }
    let base = resolve(here, base, locals, None)?;
    let found = field(here, base, name)?;
    as_expected(expected, found)
}

#[cycle(walk)]
pub fn infer_prefixed(
    here: &Here,
    prefix: Prefix,
    place: Pos,
    operand: &Node,
    locals: &mut Locals,
    expected: Option<&Ty>,
) -> Result<Resolved, Refusal>
    requires { IsTabled here.now }
    ensures told { Tells result (as_expected (option_copied expected.entry)
        (and_then (meant (names_at here.now) operand.now locals.old None) (prefixed_of prefix place))) }
    ensures kept { OnOk result (locals.new ≡ locals.old) }
{
    let operand = resolve(here, operand, locals, None)?;
    let found = prefixed(here.alloc, prefix, place, operand)?;
    as_expected(expected, found)
}

/// A sum. The list stands first, since a fault of either stands.
#[cycle(walk)]
pub fn infer_sum(
    here: &Here,
    place: Pos,
    ty: &Type,
    list: &Node,
    locals: &mut Locals,
    expected: Option<&Ty>,
) -> Result<Resolved, Refusal>
    requires { IsTabled here.now }
    ensures told { Tells result (as_expected (option_copied expected.entry)
        (both (type_found (type_names here.now.decls.now) (cut ty.now)) (meant (names_at here.now) list.now
        locals.old None) (sum_of place))) }
    ensures kept { OnOk result (locals.new ≡ locals.old) }
{
    let ty = sum_type(here, ty)?;
    let list = resolve(here, list, locals, None)?;
    let found = sum(here.alloc, place, ty, list)?;
    as_expected(expected, found)
}

/// A case with its content.
#[cycle(walk)]
pub fn infer_content(
    here: &Here,
    case: &CaseName,
    content: &Node,
    locals: &mut Locals,
    expected: Option<&Ty>,
) -> Result<Resolved, Refusal>
    requires { IsTabled here.now }
    ensures told { Tells result (as_expected (option_copied expected.entry)
        (and_then (case_found (names_at here.now) case.now) (λ k. and_then
        (meant (names_at here.now) content.now locals.old (some_content (content_of here.now.decls.now k.0 k.1)))
        (with_content (case_first case.now) k (some_content (content_of here.now.decls.now k.0 k.1)))))) }
    ensures kept { OnOk result (locals.new ≡ locals.old) }
{
    let found = case_named(here, case)?;
    let ty = content_type(here, found);
    let content = resolve(here, content, locals, ty)?;
    let found = case_with(here, case_first(case), found, ty, content)?;
    as_expected(expected, found)
}

/// Two expressions that don't hang on each other.
#[cycle(walk)]
pub fn infer_two(
    here: &Here,
    left: &Node,
    right: &Node,
    locals: &mut Locals,
) -> Result<(Resolved, Resolved), Refusal>
    requires { IsTabled here.now }
    ensures told { Tells result
        (paired (meant (names_at here.now) left.now locals.old None) (meant (names_at here.now) right.now
        locals.old None)) }
    ensures kept { OnOk result (locals.new ≡ locals.old) }
{
    let left = resolve(here, left, locals, None)?;
    let right = resolve(here, right, locals, None)?;
    Ok((left, right))
}

#[cycle(walk)]
pub fn infer_binary(
    here: &Here,
    operator: Operator,
    place: Pos,
    left: &Node,
    right: &Node,
    locals: &mut Locals,
    expected: Option<&Ty>,
) -> Result<Resolved, Refusal>
    requires { IsTabled here.now }
    ensures told { Tells result (as_expected (option_copied expected.entry)
        (and_then (paired (meant (names_at here.now) left.now locals.old None) (meant (names_at here.now) right.now
        locals.old None))
        (λ operands. binary_of operator place operands.0 operands.1))) }
    ensures kept { OnOk result (locals.new ≡ locals.old) }
{
    let (left, right) = infer_two(here, left, right, locals)?;
    let found = binary(here.alloc, operator, place, left, right)?;
    as_expected(expected, found)
}

/// A test for a case.
#[cycle(walk)]
pub fn infer_test(
    here: &Here,
    tested: &Node,
    place: Pos,
    case: &CaseName,
    locals: &mut Locals,
    expected: Option<&Ty>,
) -> Result<Resolved, Refusal>
    requires { IsTabled here.now }
    ensures told { Tells result (as_expected (option_copied expected.entry)
        (both (meant (names_at here.now) tested.now locals.old None) (case_found (names_at here.now) case.now)
        (test_of place))) }
    ensures kept { OnOk result (locals.new ≡ locals.old) }
{
    let case = case_named(here, case)?;
    let tested = resolve(here, tested, locals, None)?;
    let found = test(here.alloc, place, tested, case)?;
    as_expected(expected, found)
}

#[cycle(walk)]
pub fn infer_if(
    here: &Here,
    place: Pos,
    test: &Node,
    yes: &Node,
    no: &Node,
    locals: &mut Locals,
    expected: Option<&Ty>,
) -> Result<Resolved, Refusal>
    requires { IsTabled here.now }
    ensures told { Tells result (both (meant (names_at here.now) test.now locals.old None)
        (branches_of (meant (names_at here.now) yes.now) (meant (names_at here.now) no.now) locals.old
        (option_copied expected.entry)) (if_of place)) }
    ensures kept { OnOk result (locals.new ≡ locals.old) }
{
    let test = resolve(here, test, locals, None)?;
    let (yes, no) = infer_branches(here, yes, no, locals, expected)?;
    choice(here.alloc, place, test, yes, no)
}

/// Two branches: the second has the type of the first.
#[cycle(walk)]
pub fn infer_branches(
    here: &Here,
    yes: &Node,
    no: &Node,
    locals: &mut Locals,
    expected: Option<&Ty>,
) -> Result<(Resolved, Resolved), Refusal>
    requires { IsTabled here.now }
    ensures told { Tells result
        (branches_of (meant (names_at here.now) yes.now) (meant (names_at here.now) no.now) locals.old
        (option_copied expected.entry)) }
    ensures kept { OnOk result (locals.new ≡ locals.old) }
{
    let yes = resolve(here, yes, locals, expected)?;
    let no = resolve(here, no, locals, Some(yes.ty()))?;
    Ok((yes, no))
}
