// Structures, enumerations and scopes, with their types resolved.
ghost use Rattle.std.specs.Prelude.{◌≡◌, ◌++◌, IfOk, OnOk, flat_map, map};
ghost use Rattle.cat_names.specs.Declarations as declared;
ghost use Rattle.cat_declare.specs.inside.Made as words;
ghost use Rattle.cat_declare.specs.inside.Tabling.{AreTables, tree_at, types_at, scopes_at};
ghost use Rattle.cat_declare.specs.inside.Parted.{IsMadeOf};
ghost use Rattle.cat_declare.specs.inside.Writings.{as_pair};

use crate::tables::TreeTables;
use crate::types::{content_of, params_of, type_of, variable_type_of};
use crate::written;
use cat_check_names::Faults;
use cat_names::Fault;
use cat_pos::List;
use cat_tree::{CaseItem, FieldItem, Name, Variable};
use cat_value::{
    Case, Cases, Enumeration, Enumerations, Field, Fields, ItemDecl, ItemDecls, Kind, Scope,
    Scopes, Structure, Structures, Ty,
};
use std::alloc::{AllocError, Global};

/// All that a tree declares.
#[derive(Drop)]
pub struct Parts {
    pub structures: Structures,
    pub enumerations: Enumerations,
    pub scopes: Scopes,
}

impl Parts {
    /// What a tree declares, with the names in it that name nothing.
    pub fn of(alloc: Global, tables: &TreeTables, faults: &mut Faults) -> Result<Parts, AllocError>
        requires { AreTables tables.now }
        ensures made { IfOk result (IsMadeOf (tree_at tables.now)) }
        ensures faults { OnOk result (faults.new
            ≡ faults.old ++ words.unknown_declared (tree_at tables.now).items) }
    {
        let declarations = &tables.declarations;
        Ok(Parts {
            structures: structures_of(alloc, tables, &declarations.structures, faults)?,
            enumerations: enumerations_of(alloc, tables, &declarations.enumerations, faults)?,
            scopes: scopes_of(alloc, tables, &declarations.scopes, faults)?,
        })
    }
}

fn fields_of(
    alloc: Global,
    tables: &TreeTables,
    fields: &[FieldItem],
    faults: &mut Faults,
) -> Result<Fields, AllocError>
    requires { AreTables tables.now }
    ensures made { IfOk result (λ made. made ≡ map (words.field_made words.cut (types_at tables.now)) fields.now) }
    ensures faults { OnOk result (faults.new ≡ faults.old
        ++ words.field_faults (types_at tables.now) fields.now) }
{
    let mut made = List::new(alloc);
    for field in fields {
        let ty = type_of(alloc, tables, &field.ty, faults)?;
        let name = field.name.text.copy()?;
        made.push(Field { name, ty })?;
    }
    Ok(made)
}

fn structures_of(
    alloc: Global,
    tables: &TreeTables,
    structures: &written::StructureDeclarations,
    faults: &mut Faults,
) -> Result<Structures, AllocError>
    requires { AreTables tables.now }
    ensures made { IfOk result (λ made. made
        ≡ map (λ s. words.structure_made words.cut (types_at tables.now) (as_pair s)) structures.now) }
    ensures faults { OnOk result (faults.new ≡ faults.old
        ++ flat_map (λ s. words.field_faults (types_at tables.now) s.parts.now) structures.now) }
{
    let mut made = List::new(alloc);
    for structure in structures.as_slice() {
        let fields = fields_of(alloc, tables, structure.parts.as_slice(), faults)?;
        let name = structure.name.text.copy()?;
        made.push(Structure { name, fields })?;
    }
    Ok(made)
}

fn cases_of(
    alloc: Global,
    tables: &TreeTables,
    cases: &[CaseItem],
    faults: &mut Faults,
) -> Result<Cases, AllocError>
    requires { AreTables tables.now }
    ensures made { IfOk result (λ made. made ≡ map (words.case_made words.cut (types_at tables.now)) cases.now) }
    ensures faults { OnOk result (faults.new ≡ faults.old
        ++ words.case_faults (types_at tables.now) cases.now) }
{
    let mut made = List::new(alloc);
    for case in cases {
        let content = content_of(alloc, tables, &case.content, faults)?;
        let name = case.name.text.copy()?;
        made.push(Case { name, content })?;
    }
    Ok(made)
}

fn enumerations_of(
    alloc: Global,
    tables: &TreeTables,
    enumerations: &written::EnumerationDeclarations,
    faults: &mut Faults,
) -> Result<Enumerations, AllocError>
    requires { AreTables tables.now }
    ensures made { IfOk result (λ made. made
        ≡ map (λ e. words.enumeration_made words.cut (types_at tables.now) (as_pair e)) enumerations.now) }
    ensures faults { OnOk result (faults.new ≡ faults.old
        ++ flat_map (λ e. words.case_faults (types_at tables.now) e.parts.now) enumerations.now) }
{
    let mut made = List::new(alloc);
    for enumeration in enumerations.as_slice() {
        let cases = cases_of(alloc, tables, enumeration.parts.as_slice(), faults)?;
        let name = enumeration.name.text.copy()?;
        made.push(Enumeration { name, cases })?;
    }
    Ok(made)
}

fn kind_of(kind: cat_tree::VariableKind) -> Kind
    ensures { result ≡ declared.kind_declared kind }
{
    match kind {
        cat_tree::VariableKind::Input => Kind::Input,
        cat_tree::VariableKind::InputOutput => Kind::InputOutput,
        cat_tree::VariableKind::Output => Kind::Output,
        cat_tree::VariableKind::Internal => Kind::Internal,
        cat_tree::VariableKind::Context => Kind::Context,
        cat_tree::VariableKind::ContextOutput => Kind::ContextOutput,
    }
}

/// The number of a scope; where its name names nothing, that is a fault, and the first one comes in its place.
fn scope_number(tables: &TreeTables, name: &Name, faults: &mut Faults) -> Result<u32, AllocError>
    requires { AreTables tables.now }
    ensures number { IfOk result (λ number. number
        ≡ words.scope_number (scopes_at tables.now) name.now) }
    ensures faults { OnOk result (faults.new ≡ faults.old
        ++ words.called_faults (scopes_at tables.now) name.now) }
{
    match tables.scopes.number(&name.text) {
        Some(number) => Ok(number),
        None => {
            faults.push(Fault::NameUnknown(name.pos))?;
            Ok(0)
        }
    }
}

fn own_item(
    alloc: Global,
    tables: &TreeTables,
    kind: cat_tree::VariableKind,
    name: &Name,
    ty: &Option<cat_tree::Type>,
    params: &[FieldItem],
    faults: &mut Faults,
) -> Result<ItemDecl, AllocError>
    requires { AreTables tables.now }
    ensures made { IfOk result (λ made. made ≡ declared.variable_item kind name.now ty.now
        (words.variable_type_made words.cut (types_at tables.now) ty.now)
        (map (λ f. words.type_made words.cut (types_at tables.now) f.ty) params.now)) }
    ensures faults { OnOk result (faults.new ≡ faults.old
        ++ words.content_faults (types_at tables.now) ty.now
        ++ words.field_faults (types_at tables.now) params.now) }
{
    let declared = variable_type_of(alloc, tables, ty, faults)?;
    let params = params_of(alloc, tables, params, faults)?;
    Ok(ItemDecl {
        name: name.text.copy()?,
        pos: name.pos,
        kind: kind_of(kind),
        ty: declared,
        condition: ty.is_none(),
        params,
    })
}

fn called_item(
    alloc: Global,
    tables: &TreeTables,
    name: &Name,
    scope: &Name,
    faults: &mut Faults,
) -> Result<ItemDecl, AllocError>
    requires { AreTables tables.now }
    ensures made { IfOk result (λ made. made ≡ declared.called_item_of name.now
        (words.scope_number (scopes_at tables.now) scope.now)) }
    ensures faults { OnOk result (faults.new ≡ faults.old
        ++ words.called_faults (scopes_at tables.now) scope.now) }
{
    let number = scope_number(tables, scope, faults)?;
    Ok(ItemDecl {
        name: name.text.copy()?,
        pos: name.pos,
        kind: Kind::Called(number),
        ty: Ty::Boolean,
        condition: false,
        params: List::new(alloc),
    })
}

fn item_of(
    alloc: Global,
    tables: &TreeTables,
    variable: &Variable,
    faults: &mut Faults,
) -> Result<ItemDecl, AllocError>
    requires { AreTables tables.now }
    ensures made { IfOk result (λ made. made ≡ words.item_made words.cut (types_at tables.now)
        (scopes_at tables.now) variable.now) }
    ensures faults { OnOk result (faults.new ≡ faults.old ++ words.variable_faults (types_at tables.now)
        (scopes_at tables.now) variable.now) }
{
    match variable {
        Variable::Own(kind, _, name, ty, params) => {
            own_item(alloc, tables, *kind, name, ty, params.as_slice(), faults)
        }
        Variable::Called(name, scope) => called_item(alloc, tables, name, scope, faults),
    }
}

fn items_of(
    alloc: Global,
    tables: &TreeTables,
    variables: &[Variable],
    faults: &mut Faults,
) -> Result<ItemDecls, AllocError>
    requires { AreTables tables.now }
    ensures made { IfOk result (λ made. made ≡ map (words.item_made words.cut (types_at tables.now)
        (scopes_at tables.now)) variables.now) }
    ensures faults { OnOk result (faults.new ≡ faults.old ++ flat_map (words.variable_faults (types_at tables.now)
        (scopes_at tables.now)) variables.now) }
{
    let mut made = List::new(alloc);
    for variable in variables {
        made.push(item_of(alloc, tables, variable, faults)?)?;
    }
    Ok(made)
}

fn scopes_of(
    alloc: Global,
    tables: &TreeTables,
    scopes: &written::ScopeDeclarations,
    faults: &mut Faults,
) -> Result<Scopes, AllocError>
    requires { AreTables tables.now }
    ensures made { IfOk result (λ made. made ≡ map (λ s. words.scope_made words.cut (types_at tables.now)
        (scopes_at tables.now) (as_pair s)) scopes.now) }
    ensures faults { OnOk result (faults.new ≡ faults.old ++ flat_map (λ s. flat_map (words.variable_faults
        (types_at tables.now) (scopes_at tables.now)) s.parts.now) scopes.now) }
{
    let mut made = List::new(alloc);
    for scope in scopes.as_slice() {
        let items = items_of(alloc, tables, scope.parts.as_slice(), faults)?;
        let name = scope.name.text.copy()?;
        made.push(Scope { name, items })?;
    }
    Ok(made)
}
