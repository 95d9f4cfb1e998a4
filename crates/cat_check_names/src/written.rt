// What has a name in a tree.
ghost use Rattle.std.specs.Prelude.{◌≡◌};
ghost use Rattle.cat_tree.specs.declared.name.Name.{Name as Word};

use cat_tree::{CaseItem, FieldItem, Name, SurfaceField, Variable};

/// What has a name with its position.
pub trait Written {
    ghost written: { Self → Word };

    fn written(&self) -> &Name
        ensures { result.now ≡ written self.now };
}

impl Written for Name {
    ghost written = { λ name. name };

    fn written(&self) -> &Name {
        self
    }
}

impl Written for FieldItem {
    ghost written = { λ field. field.name };

    fn written(&self) -> &Name {
        &self.name
    }
}

impl Written for CaseItem {
    ghost written = { λ case. case.name };

    fn written(&self) -> &Name {
        &self.name
    }
}

impl Written for SurfaceField {
    ghost written = { λ field. field.name };

    fn written(&self) -> &Name {
        &self.name
    }
}

impl Written for Variable {
    ghost use Rattle.cat_names.specs.DeclarationFaults.{variable_name};

    ghost written = { variable_name };

    fn written(&self) -> &Name {
        match self {
            Variable::Own(_, _, name, _, _) | Variable::Called(name, _) => name,
        }
    }
}
