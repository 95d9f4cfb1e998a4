//! The path to a part of an input.
ghost use Rattle.std.specs.Prelude.{◌≡◌, [], ◌∷◌, ◌++◌, IfOk, codes, string_bytes};
ghost use Rattle.cat_json.specs.Paths.{path_text, first_text, next_text, element_text};

use crate::Step;
use cat_pos::List;
use std::alloc::{AllocError, Global};
use std::marker::Model;

/// The steps from the whole to a part. The last step is kept first, so that a path grows from the part to the whole.
#[derive(Debug, Drop)]
pub struct Path {
    steps: List<Step>,
}

impl Model for Path {
    ghost use Rattle.std.specs.Prelude.{List, reverse};
    ghost use Rattle.cat_json.specs.declared.step.Step.{Step};

    ghost Value = { List Step };

    ghost view = { λ path. reverse path.steps };
}

impl Path {
    /// The path to the whole.
    pub fn new(alloc: Global) -> Path
        ensures { result ≡ [] }
    {
        Path {
            steps: List::new(alloc),
        }
    }

    /// The path from what the part is a part of.
    pub fn under(self, step: Step) -> Result<Path, AllocError>
        ensures { IfOk result (λ path. path ≡ step ∷ self) }
    {
        let Path { mut steps } = self;
        steps.push(step)?;
        Ok(Path { steps })
    }

    /// The names joined by `.`, with `[k]` for an element; `(input)` for the whole.
    pub fn text(self, alloc: Global) -> Result<String, AllocError>
        ensures { IfOk result (λ text. string_bytes text ≡ path_text self) }
    {
        let Path { mut steps } = self;
        let Some(first) = steps.pop() else {
            return String::from_str(alloc, "(input)");
        };
        let mut text = first_text(alloc, &first)?;
        while let Some(step) = steps.pop() {
            let next = next_text(alloc, &step)?;
            text.push_str(next.as_str())?;
        }
        Ok(text)
    }
}

fn first_text(alloc: Global, step: &Step) -> Result<String, AllocError>
    ensures { IfOk result (λ text. string_bytes text ≡ first_text step.now) }
{
    match step {
        Step::Name(name) => String::from_str(alloc, name.as_str()),
        Step::Element(k) => element_text(alloc, *k),
    }
}

fn next_text(alloc: Global, step: &Step) -> Result<String, AllocError>
    ensures { IfOk result (λ text. string_bytes text ≡ next_text step.now) }
{
    match step {
        Step::Name(name) => name_text(alloc, name.as_str()),
        Step::Element(k) => element_text(alloc, *k),
    }
}

fn name_text(alloc: Global, name: &str) -> Result<String, AllocError>
    ensures { IfOk result (λ text. string_bytes text ≡ codes "." ++ name.now) }
{
    format!(in alloc; ".{name}")
}

fn element_text(alloc: Global, k: usize) -> Result<String, AllocError>
    ensures { IfOk result (λ text. string_bytes text ≡ element_text k) }
{
    format!(in alloc; "[{k}]")
}
