// How high an expression is.
ghost use Rattle.std.specs.Prelude.{◌≡◌, ◌<◌, max};
ghost use Rattle.cat_tree.specs.Spells.{height_of};
ghost use Rattle.cat_tree.specs.inside.Highest.{highest_part, highest_node, highest_value, highest_body};

use crate::{Node, Nodes, SurfaceArms, SurfaceFields};
use cat_pos::{Boxed, ENTRIES_BOUND};

/// How high an expression is: 1 where it has no parts, else one more than its highest part. Parentheses count.
#[cycle(height)]
#[tactic(auto, using(crate::proofs::HeightEquations::height_of_is))]
pub fn height(e: &Node) -> u32
    requires { height_of e.now < ENTRIES_BOUND }
    ensures { result ≡ height_of e.now }
{
    1 + highest_part(e)
}

#[cycle(height)]
#[tactic(auto, using(crate::proofs::HeightEquations::parts))]
fn highest_part(e: &Node) -> u32
    requires { height_of e.now < ENTRIES_BOUND }
    ensures { result ≡ highest_part e.now }
{
    match e {
        Node::Literal(_, _) => 0,
        Node::Name(_) => 0,
        Node::Case(_) => 0,
        Node::Parens(_, inner) => height_in(inner),
        Node::Field(base, _) => height_in(base),
        Node::Prefixed(_, _, operand) => height_in(operand),
        Node::Sum(_, _, list) => height_in(list),
        Node::Content(_, content) => height_in(content),
        Node::Call(_, args) => highest_node(args),
        Node::Binary(_, _, left, right) => higher(height_in(left), height_in(right)),
        Node::Test(tested, _, _) => height_in(tested),
        Node::List(_, elements) => highest_node(elements),
        Node::Structure(_, fields) => highest_value(fields),
        Node::ScopeCall(_, _, fields, _) => highest_value(fields.get()),
        Node::If(_, test, yes, no) => higher(
            height_in(test),
            higher(height_in(yes), height_in(no)),
        ),
        Node::Match(_, tested, arms) => higher(height_in(tested), highest_body(arms.get())),
        Node::Each(_, _, _, list, body) => higher(height_in(list), height_in(body)),
        Node::Combine(_, list, start, body) => higher(
            height_in(list),
            higher(height_in(start), height_in(body)),
        ),
    }
}

#[cycle(height)]
fn height_in(e: &Boxed<Node>) -> u32
    requires { height_of e.now < ENTRIES_BOUND }
    ensures { result ≡ height_of e.now }
{
    height(e.get())
}

#[cycle(height)]
fn highest_node(nodes: &Nodes) -> u32
    requires { highest_node nodes.now < ENTRIES_BOUND }
    ensures { result ≡ highest_node nodes.now }
{
    let mut highest = 0;
    for node in nodes.as_slice() {
        highest = higher(highest, height(node));
    }
    highest
}

#[cycle(height)]
fn highest_value(fields: &SurfaceFields) -> u32
    requires { highest_value fields.now < ENTRIES_BOUND }
    ensures { result ≡ highest_value fields.now }
{
    let mut highest = 0;
    for field in fields.as_slice() {
        highest = higher(highest, height(&field.value));
    }
    highest
}

#[cycle(height)]
fn highest_body(arms: &SurfaceArms) -> u32
    requires { highest_body arms.now < ENTRIES_BOUND }
    ensures { result ≡ highest_body arms.now }
{
    let mut highest = 0;
    for arm in arms.as_slice() {
        highest = higher(highest, height(&arm.body));
    }
    highest
}

fn higher(a: u32, b: u32) -> u32
    ensures { result ≡ max a b }
{
    if a < b { b } else { a }
}
