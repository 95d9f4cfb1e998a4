// What forms with lists of parts mean.
ghost use Rattle.std.specs.Prelude.{◌≡◌, Ok, OnOk};
ghost use Rattle.std.specs.Option.{option_copied};
ghost use Rattle.cat_names.specs.Found.{Tells, and_then};
ghost use Rattle.cat_names.specs.Compound.{scope_call_of, structure_of_fields};
ghost use Rattle.cat_names.specs.Meaning.{field_meant, meant};
ghost use Rattle.cat_names.specs.Naming.{function_found, scope_found, structure_found};
ghost use Rattle.cat_names.specs.Operations.{as_expected};
ghost use Rattle.cat_names.specs.Parts.{all_of_type, arguments_of, call_of, elements_of, list_of, value_of, values_of};
ghost use Rattle.cat_names.specs.Types.{expected_element};
ghost use Rattle.cat_check_forms.specs.Tabled.{IsTabled, names_at};
ghost use Rattle.cat_check_forms.specs.Taken.{part_named};
ghost use Rattle.cat_check_exprs.specs.inside.Chains.{behind};

use crate::parted::{alone, parted};
use crate::walk::resolve;
use cat_check_forms::{
    Here, Owner, call, called_output, counted, function, list, no_elements, part_named, scope_call,
    scope_named, structure, structure_named,
};
use cat_check_operators::{Resolved, as_expected, expected_element};
use cat_names::{Locals, Refusal};
use cat_pos::{List, Pos};
use cat_scope::{Exprs, FieldValue as Value, FieldValues as Values};
use cat_tree::{Name, Node, Nodes, SurfaceField, SurfaceFields};
use cat_value::{Ty, Tys};

#[cycle(walk)]
pub fn infer_call(
    here: &Here,
    name: &Name,
    args: &Nodes,
    locals: &mut Locals,
    expected: Option<&Ty>,
) -> Result<Resolved, Refusal>
    requires { IsTabled here.now }
    ensures told { Tells result (as_expected (option_copied expected.entry)
        (and_then (function_found (names_at here.now) name.now locals.old)
        (call_of (meant (names_at here.now)) name.now args.now locals.old))) }
    ensures kept { OnOk result (locals.new ≡ locals.old) }
{
    let (number, function) = function(here, name, locals)?;
    counted(name.pos, args.len(), function.params.len())?;
    let exprs = infer_arguments(here, args, locals, &function.params)?;
    let found = call(here.alloc, name.pos, number, exprs, &function.ty)?;
    as_expected(expected, found)
}

/// Arguments, each of the type of its parameter.
#[cycle(walk)]
pub fn infer_arguments(
    here: &Here,
    args: &Nodes,
    locals: &mut Locals,
    params: &Tys,
) -> Result<Exprs, Refusal>
    requires { IsTabled here.now }
    ensures told { Tells result (arguments_of (meant (names_at here.now)) args.now locals.old params.now) }
    ensures kept { OnOk result (locals.new ≡ locals.old) }
{
    let mut made = List::new(here.alloc);
    for (number, arg) in args.as_slice().iter().enumerate() {
        let Some(ty) = params.get(number) else {
            return Ok(made);
        };
        let found = resolve(here, arg, locals, Some(ty))?;
        made.push(found.into_expr().into_inner())?;
    }
    Ok(made)
}

#[cycle(walk)]
pub fn infer_list(
    here: &Here,
    place: Pos,
    nodes: &Nodes,
    locals: &mut Locals,
    expected: Option<&Ty>,
) -> Result<Resolved, Refusal>
    requires { IsTabled here.now }
    ensures told { Tells result (as_expected (option_copied expected.entry)
        (and_then (elements_of (meant (names_at here.now)) place nodes.now locals.old
        (expected_element (option_copied expected.entry))) (list_of (names_at here.now) place))) }
    ensures kept { OnOk result (locals.new ≡ locals.old) }
{
    let (elements, ty) = infer_elements(here, place, nodes, locals, expected_element(expected))?;
    let found = list(here, place, elements, &ty)?;
    as_expected(expected, found)
}

/// Elements: those behind the first have its type.
#[cycle(walk)]
#[tactic(auto, using(crate::proofs::Chains::elements))]
pub fn infer_elements(
    here: &Here,
    place: Pos,
    nodes: &Nodes,
    locals: &mut Locals,
    expected: Option<&Ty>,
) -> Result<(Exprs, Ty), Refusal>
    requires { IsTabled here.now }
    ensures told { Tells result
        (elements_of (meant (names_at here.now)) place nodes.now locals.old (option_copied expected.entry)) }
    ensures kept { OnOk result (locals.new ≡ locals.old) }
{
    let Some((first, rest)) = parted(nodes) else {
        return no_elements(here.alloc, place, expected);
    };
    let first = resolve(here, first, locals, expected)?;
    let (first, ty) = first.into_parts();
    let elements = infer_all(
        here,
        rest,
        locals,
        &ty,
        alone(here.alloc, first.into_inner())?,
    )?;
    Ok((elements, ty))
}

/// Elements of that type, behind those that are made.
#[cycle(walk)]
pub fn infer_all(
    here: &Here,
    nodes: &[Node],
    locals: &mut Locals,
    ty: &Ty,
    made: Exprs,
) -> Result<Exprs, Refusal>
    requires { IsTabled here.now }
    ensures told { Tells result (behind made (all_of_type (meant (names_at here.now)) nodes.now locals.old ty.now)) }
    ensures kept { OnOk result (locals.new ≡ locals.old) }
{
    let mut made = made;
    for node in nodes {
        let found = resolve(here, node, locals, Some(ty))?;
        made.push(found.into_expr().into_inner())?;
    }
    Ok(made)
}

/// The fields of a literal or of a scope call.
#[cycle(walk)]
pub fn infer_values(
    here: &Here,
    owner: Owner,
    fields: &SurfaceFields,
    locals: &mut Locals,
) -> Result<Values, Refusal>
    requires { IsTabled here.now }
    ensures told { Tells result
        (values_of (field_meant (names_at here.now)) (part_named here.now.decls.now owner) fields.now locals.old) }
    ensures kept { OnOk result (locals.new ≡ locals.old) }
{
    let mut made = List::new(here.alloc);
    for field in fields.as_slice() {
        made.push(infer_value(here, owner, field, locals)?)?;
    }
    Ok(made)
}

#[cycle(walk)]
pub fn infer_value(
    here: &Here,
    owner: Owner,
    field: &SurfaceField,
    locals: &mut Locals,
) -> Result<Value, Refusal>
    requires { IsTabled here.now }
    ensures told { Tells result
        (value_of (part_named here.now.decls.now owner) (field_meant (names_at here.now) field.now) locals.old) }
    ensures kept { OnOk result (locals.new ≡ locals.old) }
{
    let (number, ty) = part_named(here, owner, &field.name)?;
    let value = resolve(here, &field.value, locals, Some(ty))?;
    Ok(Value {
        field: number,
        value: value.into_expr().into_inner(),
    })
}

#[cycle(walk)]
pub fn infer_structure(
    here: &Here,
    name: &Name,
    fields: &SurfaceFields,
    locals: &mut Locals,
    expected: Option<&Ty>,
) -> Result<Resolved, Refusal>
    requires { IsTabled here.now }
    ensures told { Tells result (as_expected (option_copied expected.entry)
        (and_then (structure_found (names_at here.now) name.now)
        (structure_of_fields (field_meant (names_at here.now)) (names_at here.now) name.now fields.now locals.old))) }
    ensures kept { OnOk result (locals.new ≡ locals.old) }
{
    let number = structure_named(here, name)?;
    let values = infer_values(here, Owner::Structure(number), fields, locals)?;
    let found = structure(here, name.pos, number, values)?;
    as_expected(expected, found)
}

#[cycle(walk)]
pub fn infer_scope_call(
    here: &Here,
    place: Pos,
    name: &Name,
    fields: &SurfaceFields,
    output: &Name,
    locals: &mut Locals,
    expected: Option<&Ty>,
) -> Result<Resolved, Refusal>
    requires { IsTabled here.now }
    ensures told { Tells result (as_expected (option_copied expected.entry)
        (and_then (scope_found (names_at here.now) name.now)
        (scope_call_of (field_meant (names_at here.now)) (names_at here.now) place name.now fields.now output.now
        locals.old))) }
    ensures kept { OnOk result (locals.new ≡ locals.old) }
{
    let scope = scope_named(here, name)?;
    let output = called_output(here, scope, output)?;
    let values = infer_values(here, Owner::Scope(scope), fields, locals)?;
    let found = scope_call(here, place, name.pos, scope, values, output)?;
    as_expected(expected, found)
}
