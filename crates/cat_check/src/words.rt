// The names of the scopes that expressions call.
ghost use Rattle.std.specs.Prelude.{◌≡◌, ◌++◌, OnOk, flat_map};
ghost use Rattle.cat_names.specs.ScopeWords.{scope_words};

use cat_tree::{Names, Node, Nodes, SurfaceArms, SurfaceFields};
use std::alloc::AllocError;

/// Adds the names of the scopes that an expression calls, from the left. Calls nest in proportion to the expression's
/// height.
#[cycle(words)]
#[tactic(auto, using(crate::proofs::WordLemmas::adding))]
pub fn add_words(node: &Node, words: &mut Names) -> Result<(), AllocError>
    ensures { OnOk result (words.new ≡ words.old ++ scope_words node.now) }
{
    match node {
        Node::Literal(_, _) => Ok(()),
        Node::Name(_) => Ok(()),
        Node::Case(_) => Ok(()),
        Node::Parens(_, part) => add_words(part.get(), words),
        Node::Field(part, _) => add_words(part.get(), words),
        Node::Prefixed(_, _, part) => add_words(part.get(), words),
        Node::Sum(_, _, part) => add_words(part.get(), words),
        Node::Content(_, part) => add_words(part.get(), words),
        Node::Test(part, _, _) => add_words(part.get(), words),
        Node::Binary(_, _, first, second) => {
            add_words(first.get(), words)?;
            add_words(second.get(), words)
        }
        Node::Each(_, _, _, list, body) => {
            add_words(list.get(), words)?;
            add_words(body.get(), words)
        }
        Node::If(_, test, yes, no) => {
            add_words(test.get(), words)?;
            add_words(yes.get(), words)?;
            add_words(no.get(), words)
        }
        Node::Combine(_, list, start, body) => {
            add_words(list.get(), words)?;
            add_words(start.get(), words)?;
            add_words(body.get(), words)
        }
        Node::Call(_, args) => add_all(args, words),
        Node::List(_, elements) => add_all(elements, words),
        Node::Structure(_, fields) => add_fields(fields, words),
        Node::ScopeCall(_, scope, inputs, _) => {
            words.push(scope.get().copy()?)?;
            add_fields(inputs.get(), words)
        }
        Node::Match(_, matched, arms) => {
            add_words(matched.get(), words)?;
            add_arms(arms.get(), words)
        }
    }
}

#[cycle(words)]
fn add_all(parts: &Nodes, words: &mut Names) -> Result<(), AllocError>
    ensures { OnOk result (words.new ≡ words.old ++ flat_map scope_words parts.now) }
{
    for part in parts.as_slice() {
        add_words(part, words)?;
    }
    Ok(())
}

#[cycle(words)]
fn add_fields(fields: &SurfaceFields, words: &mut Names) -> Result<(), AllocError>
    ensures { OnOk result (words.new ≡ words.old ++ flat_map (λ f. scope_words f.value) fields.now) }
{
    for field in fields.as_slice() {
        add_words(&field.value, words)?;
    }
    Ok(())
}

#[cycle(words)]
fn add_arms(arms: &SurfaceArms, words: &mut Names) -> Result<(), AllocError>
    ensures { OnOk result (words.new ≡ words.old ++ flat_map (λ a. scope_words a.body) arms.now) }
{
    for arm in arms.as_slice() {
        add_words(&arm.body, words)?;
    }
    Ok(())
}
