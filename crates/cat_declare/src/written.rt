// What a tree declares, as it is written.
ghost use Rattle.std.specs.Prelude.{◌≡◌, ◌≤◌, IfOk, length, map};
ghost use Rattle.cat_names.specs.Written.{structures_in, enumerations_in, scopes_in};
ghost use Rattle.cat_declare.specs.inside.Writings.{as_pair, AreDeclarations};

use cat_check_names::Named;
use cat_pos::{List, Text};
use cat_tree::{CaseItem, FieldItem, Item, Name, Tree, Variable};
use std::alloc::{AllocError, Global};

/// A declaration: a name, and the fields, cases or variables that it has.
#[derive(Drop)]
pub struct Declaration<'a, T> {
    pub name: &'a Name,
    pub parts: &'a List<T>,
}

impl<'a, T> Named for Declaration<'a, T> {
    ghost name_of = { λ declaration. declaration.name.now.text };

    fn name(&self) -> &Text {
        &self.name.text
    }
}

pub type StructureDeclarations<'a> = List<Declaration<'a, FieldItem>>;

pub type EnumerationDeclarations<'a> = List<Declaration<'a, CaseItem>>;

pub type ScopeDeclarations<'a> = List<Declaration<'a, Variable>>;

/// All declarations of a tree, in source order.
#[derive(Drop)]
pub struct Declarations<'a> {
    pub tree: &'a Tree,
    pub structures: StructureDeclarations<'a>,
    pub enumerations: EnumerationDeclarations<'a>,
    pub scopes: ScopeDeclarations<'a>,
}

impl<'a> Declarations<'a> {
    pub fn of(alloc: Global, tree: &'a Tree) -> Result<Declarations<'a>, AllocError>
        ensures all { IfOk result AreDeclarations }
        ensures tree { IfOk result (λ declarations. declarations.tree.now ≡ tree.now) }
    {
        let items = tree.items.as_slice();
        Ok(Declarations {
            tree,
            structures: structures_of(alloc, items)?,
            enumerations: enumerations_of(alloc, items)?,
            scopes: scopes_of(alloc, items)?,
        })
    }
}

fn structures_of<'a>(
    alloc: Global,
    items: &'a [Item],
) -> Result<StructureDeclarations<'a>, AllocError>
    ensures { IfOk result (λ structures. map as_pair structures ≡ structures_in items.now) }
{
    let mut structures = List::new(alloc);
    for item in items {
        let Item::Structure(_, name, parts) = item else {
            continue;
        };
        structures.push(Declaration { name, parts })?;
    }
    Ok(structures)
}

fn enumerations_of<'a>(
    alloc: Global,
    items: &'a [Item],
) -> Result<EnumerationDeclarations<'a>, AllocError>
    ensures { IfOk result (λ enumerations. map as_pair enumerations ≡ enumerations_in items.now) }
{
    let mut enumerations = List::new(alloc);
    for item in items {
        let Item::Enumeration(_, name, parts) = item else {
            continue;
        };
        enumerations.push(Declaration { name, parts })?;
    }
    Ok(enumerations)
}

fn scopes_of<'a>(alloc: Global, items: &'a [Item]) -> Result<ScopeDeclarations<'a>, AllocError>
    ensures { IfOk result (λ scopes. map as_pair scopes ≡ scopes_in items.now) }
{
    let mut scopes = List::new(alloc);
    for item in items {
        let Item::Scope(_, name, parts) = item else {
            continue;
        };
        scopes.push(Declaration { name, parts })?;
    }
    Ok(scopes)
}
