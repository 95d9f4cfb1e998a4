// A program and a forest, and what they tell.
ghost use Rattle.cat_date.specs.declared.rounding.Rounding.TheVariants.{Up};
ghost use Rattle.std.specs.Prelude.{◌≡◌, [], ◌∷◌, IfOk};
ghost use Rattle.cat_scope.specs.declared.defs.SourcePart.TheVariants.{Declaration};

use crate::{Bodies, Body, Forest, ForestGroup, ForestTarget, Program, SourcePart};
use cat_date::Rounding;
use cat_pos::{List, Numbers, Shared, Text};
use cat_value::{Decls, Scope, Target};
use std::alloc::{AllocError, Global};
use std::process::Abort;
use std::test::Fail;

/// What there is to say of a scope without items.
fn bodies(alloc: Global) -> Result<Bodies, AllocError>
    ensures { IfOk result (λ bodies. bodies
        ≡ record { defs = []; assertions = []; source = Declaration ∷ []; rounding = Up; order = []; calls = [] }
        ∷ []) }
{
    let mut source = List::new(alloc);
    source.push(SourcePart::Declaration)?;
    let mut bodies = List::new(alloc);
    bodies.push(Body {
        defs: List::new(alloc),
        assertions: List::new(alloc),
        source,
        rounding: Rounding::Up,
        order: List::new(alloc),
        calls: List::new(alloc),
    })?;
    Ok(bodies)
}

/// A scope without items.
#[tactic(auto, using(crate::proofs::BareProgram::bare_sound))]
fn decls(alloc: Global, name: &str) -> Result<Decls, AllocError>
    ensures { IfOk result (λ decls. decls.scopes ≡ record { name = name.now; items = [] } ∷ []) }
{
    let mut scopes = List::new(alloc);
    scopes.push(Scope {
        name: Text::from_str(alloc, name)?,
        items: List::new(alloc),
    })?;
    Ok(Decls::from_parts(List::new(alloc), List::new(alloc), scopes))
}

fn program(alloc: Global, name: &str) -> Result<Program, AllocError> {
    let mut scope_order = List::new(alloc);
    scope_order.push(0)?;
    let decls = decls(alloc, name)?;
    let shared = Shared::new(alloc, decls)?;
    Ok(Program::from_parts(shared, bodies(alloc)?, scope_order))
}

#[test]
fn a_program_tells_its_parts(rt: HostRuntime) -> Result<(), Fail> {
    let alloc = rt.alloc();
    let program = program(alloc, "Tax")?;
    assert!(rt; program.scope_named("Tax") == Some(0));
    assert!(rt; program.scope_named("Taxes").is_none());
    assert!(rt; program.scope_order() == [0].as_slice());
    assert!(rt; program.decls().scopes.len() == 1);
    Ok(())
}

/// The second group excepts the first.
#[test]
#[tactic(auto, using(crate::proofs::BareProgram::two_groups_are_low))]
fn a_forest_keeps_its_targets(rt: HostRuntime) -> Result<(), Fail> {
    let alloc = rt.alloc();
    let mut groups = List::new(alloc);
    groups.push(ForestGroup {
        defs: List::from_slice(alloc, &[0])?,
        excepted_by: List::from_slice(alloc, &[1])?,
    })?;
    groups.push(ForestGroup {
        defs: List::from_slice(alloc, &[1])?,
        excepted_by: List::new(alloc),
    })?;
    let mut targets = List::new(alloc);
    targets.push(ForestTarget {
        target: Target {
            scope: 0,
            item: 1,
            inner: None,
        },
        groups,
    })?;
    let forest = Forest::from_parts(targets);
    assert!(rt; forest.targets.len() == 1);
    assert!(rt; forest.targets.at(0).groups.at(0).excepted_by.at(0) == &1);
    Ok(())
}
