// A machine with the constants of a code, which runs many times.
ghost use Rattle.std.specs.Prelude.{◌≡◌, IfOk};
ghost use Rattle.cat_machine.specs.Running.{GivesOutcome, IsGiven, constant_values};

use crate::executing::{EndedRun, run_in};
use crate::machine::Machine;
use crate::starting::{clear, empty, load_constants};
use cat_code::Code;
use cat_pool::References;
use cat_value::{Input, Outcome};
use std::alloc::{AllocError, Global};
use std::marker::Model;

/// A machine over a pool that has the constants of a code, and no other nodes. Between two runs it keeps the room that
/// they took. Contracts see the values of the constants.
#[derive(Drop)]
pub struct Loaded {
    /// Out of here only while it runs.
    machine: Option<Box<Machine>>,
    constants: References,
}

impl Model for Loaded {
    ghost use Rattle.std.specs.Prelude.{List};
    ghost use Rattle.std.specs.Coded.{codes};
    ghost use Rattle.cat_value.specs.declared.value.Value.{Value as Valued};
    ghost use Rattle.cat_value.specs.contracts.value.Value as valued;
    ghost use Rattle.cat_machine.specs.inside.Resting.{IsResting, values_at};

    ghost Value = { List Valued };

    ghost coded = { Prim.hlevel (codes, valued.the_row.coded) };

    ghost view = { λ it. values_at it.machine it.constants };

    ghost invariant = { λ it. IsResting it.machine it.constants };
}

impl Loaded {
    pub fn new(alloc: Global, code: &Code) -> Result<Loaded, AllocError>
        ensures { IfOk result (λ made. made ≡ constant_values code.now.tables.constants) }
    {
        let mut machine = Box::new(alloc, empty(alloc))?;
        let constants = load_constants(alloc, code, &mut machine.pool)?;
        let machine = Some(machine);
        Ok(Loaded { machine, constants })
    }

    /// The outcome that the code gives. The constants aren't loaded anew.
    pub fn execute(
        &mut self,
        alloc: Global,
        code: &Code,
        scope: u32,
        input: &Input,
    ) -> Result<Outcome, AllocError>
        requires given { ∥ IsGiven code.now scope input.now ∥₁ }
        requires constants { self.old ≡ constant_values code.now.tables.constants }
        ensures outcome { IfOk result (GivesOutcome code.now scope input.now) }
        ensures clean { self.new ≡ self.old }
    {
        let Some(machine) = self.machine.take() else {
            unreachable!();
        };
        let mark = machine.pool.mark();
        let constants = self.constants.as_slice();
        let EndedRun {
            mut machine,
            steps: _,
            outcome,
        } = run_in(alloc, code, scope, input, constants, machine);
        clear(&mut machine);
        machine.pool.release(mark);
        self.machine = Some(machine);
        outcome
    }
}
