// What a source says of a scope.
ghost use Rattle.std.specs.Prelude.{◌≡◌, [], OnOk};
ghost use Rattle.cat_names.specs.Lines.{Declaration, Condition, Definition, Assertion as Asserted, one};
ghost use Rattle.cat_check_exprs.specs.Saying.{nothing_said, with_lines};

use cat_pos::{List, Shared};
use cat_scope::{Assertion, Assertions, Def, Defs, Expr, SourcePart, SourceParts};
use std::alloc::{AllocError, Global};

/// What a source says of a scope, in its order: the definitions, the assertions, and what they stand between.
#[derive(Drop)]
pub struct Said {
    pub defs: Defs,
    pub assertions: Assertions,
    pub source: SourceParts,
}

impl Said {
    pub fn new(alloc: Global) -> Said
        ensures { result ≡ nothing_said }
    {
        Said {
            defs: List::new(alloc),
            assertions: List::new(alloc),
            source: List::new(alloc),
        }
    }

    /// Adds that the scope is declared here.
    pub fn declare(&mut self) -> Result<(), AllocError>
        ensures { OnOk result (self.new ≡ with_lines self.old (one Declaration)) }
    {
        self.source.push(SourcePart::Declaration)
    }

    /// Adds the condition of a block.
    pub fn condition(&mut self, condition: Shared<Expr>) -> Result<(), AllocError>
        ensures { OnOk result (self.new ≡ with_lines self.old (one (Condition condition))) }
    {
        self.source.push(SourcePart::Condition(condition))
    }

    pub fn define(&mut self, def: Def) -> Result<(), AllocError>
        ensures { OnOk result (self.new ≡ with_lines self.old (one (Definition def))) }
    {
        self.source.push(SourcePart::Definition)?;
        self.defs.push(def)
    }

    pub fn assert(&mut self, assertion: Assertion) -> Result<(), AllocError>
        ensures { OnOk result (self.new ≡ with_lines self.old (one (Asserted assertion))) }
    {
        self.source.push(SourcePart::Assertion)?;
        self.assertions.push(assertion)
    }
}
