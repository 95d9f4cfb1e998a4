// Targets by their words.
ghost use Rattle.std.specs.Prelude.{◌≡◌, [], IfOk, IfErr};
ghost use Rattle.std.specs.Option.{option_map};
ghost use Rattle.cat_value.specs.declared.declaration.Kind.TheVariants.{Called};
ghost use Rattle.cat_image.specs.inside.Reads.{cut};
ghost use Rattle.cat_check_names.specs.Tables.{AreTablesOf};
ghost use Rattle.cat_verify_tables.specs.inside.Causes.{AtLine, Refuses, IsFaulty};
ghost use Rattle.cat_verify_tables.specs.inside.Entries.{AreTold};
ghost use Rattle.cat_verify_tables.specs.inside.TargetNaming as words;
ghost use Rattle.cat_verify_tables.specs.inside.TargetNaming.{IsEntryOf, IsWrongEntry};

use crate::TableRefusal;
use crate::lines::position;
use crate::numbers::behind;
use cat_check_names::NameTables;
use cat_code::{TargetEntries, TargetEntry};
use cat_image::ImageTarget;
use cat_pos::Text;
use cat_value::{Decls, Kind, Target};
use std::alloc::{AllocError, Global};

/// Declarations, with what is looked up in them.
#[derive(Drop)]
pub(crate) struct Naming<'a> {
    pub decls: &'a Decls,
    pub names: NameTables,
    /// How many files there are.
    pub files: usize,
}

impl<'a> Naming<'a> {
    /// An item by its name: its number and its kind.
    fn item(&self, alloc: Global, scope: u32, name: &str) -> Result<Option<(u32, Kind)>, AllocError>
        requires { AreTablesOf self.now.decls.now self.now.names }
        ensures { IfOk result (λ found. found ≡ words.kind_named self.now.decls.now scope name.now) }
    {
        let name = Text::from_str(alloc, name)?;
        match self.names.item(self.decls, scope, &name) {
            Some((number, item)) => Ok(Some((number, item.kind))),
            None => Ok(None),
        }
    }

    /// The number of a variable.
    fn own(&self, alloc: Global, scope: u32, name: &str) -> Result<Option<u32>, AllocError>
        requires { AreTablesOf self.now.decls.now self.now.names }
        ensures { IfOk result (λ found. found ≡ words.own_named self.now.decls.now scope name.now) }
    {
        match self.item(alloc, scope, name)? {
            Some((_, Kind::Called(_))) => Ok(None),
            Some((number, _)) => Ok(Some(number)),
            None => Ok(None),
        }
    }

    /// A variable of a called scope.
    fn inner(
        &self,
        alloc: Global,
        scope: u32,
        item: u32,
        called: u32,
        name: &str,
    ) -> Result<Option<Target>, AllocError>
        requires { AreTablesOf self.now.decls.now self.now.names }
        ensures { IfOk result (λ found. found
            ≡ words.inner_named self.now.decls.now scope name.now (item, Called called)) }
    {
        match self.own(alloc, called, name)? {
            Some(inner) => {
                let inner = Some(inner);
                Ok(Some(Target { scope, item, inner }))
            }
            None => Ok(None),
        }
    }

    /// A variable, or one of a called scope.
    fn variable(&self, alloc: Global, scope: u32, names: &str) -> Result<Option<Target>, AllocError>
        requires { AreTablesOf self.now.decls.now self.now.names }
        ensures { IfOk result (λ found. found
            ≡ words.variable_named self.now.decls.now scope names.now (cut 46 names.now)) }
    {
        let Some((name, rest)) = at_dot(names) else {
            return match self.own(alloc, scope, names)? {
                Some(item) => {
                    let inner = None;
                    Ok(Some(Target { scope, item, inner }))
                }
                None => Ok(None),
            };
        };
        match self.item(alloc, scope, name)? {
            Some((item, Kind::Called(called))) => self.inner(alloc, scope, item, called, rest),
            Some(_) => Ok(None),
            None => Ok(None),
        }
    }

    /// The target of a place `S.x` or `S.t.x`.
    fn target(&self, alloc: Global, place: &str) -> Result<Option<Target>, AllocError>
        requires { AreTablesOf self.now.decls.now self.now.names }
        ensures { IfOk result (λ found. found ≡ words.target_named self.now.decls.now place.now) }
    {
        let Some((scope, names)) = at_dot(place) else {
            return Ok(None);
        };
        let scope = Text::from_str(alloc, scope)?;
        match self.names.scope_named(self.decls, &scope) {
            Some(scope) => self.variable(alloc, scope, names),
            None => Ok(None),
        }
    }

    fn entry(
        &self,
        alloc: Global,
        line: &ImageTarget,
        number: usize,
    ) -> Result<TargetEntry, TableRefusal>
        requires { AreTablesOf self.now.decls.now self.now.names }
        ensures told { IfOk result (IsEntryOf self.now.decls.now self.now.files line.now) }
        ensures cause { IfErr result (AtLine number (IsWrongEntry self.now.decls.now self.now.files line.now)) }
    {
        let pos = position(self.files, line.pos, number)?;
        let Some(target) = self.target(alloc, line.place.as_str())? else {
            return Err(TableRefusal::BadTable(number));
        };
        Ok(TargetEntry { target, pos })
    }

    /// Targets, the first of which has that line.
    pub fn entries(
        &self,
        alloc: Global,
        lines: &[ImageTarget],
        first: usize,
    ) -> Result<TargetEntries, TableRefusal>
        requires { AreTablesOf self.now.decls.now self.now.names }
        ensures told { IfOk result (AreTold (λ _. IsEntryOf self.now.decls.now self.now.files) [] lines.now) }
        ensures cause { IfErr result (Refuses (IsFaulty
            (λ _. IsWrongEntry self.now.decls.now self.now.files) first lines.now)) }
    {
        let mut entries = TargetEntries::new(alloc);
        for (at, line) in lines.iter().enumerate() {
            let number = behind(first, at)?;
            let made = self.entry(alloc, line, number)?;
            entries.push(made)?;
        }
        Ok(entries)
    }
}

/// What stands in front of the first dot, and behind it.
fn at_dot(text: &str) -> Option<(&str, &str)>
    ensures { option_map (λ parts. (parts.0.now, parts.1.now)) result ≡ cut 46 text.now }
{
    text.split_once('.')
}
