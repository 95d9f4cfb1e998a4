// The answers that lead to a node.
ghost use Rattle.std.specs.Prelude.{◌≡◌, ◌∷◌, [], IsTrue, IfOk, OnOk, MatchOption, length, reverse};
ghost use Rattle.cat_search.specs.Searched.{everything};
ghost use Rattle.cat_search.specs.Ways.{ask_below, led_to, turned, passed, way_from};

use crate::following::following;
use cat_guard::{Table, TreeNode};
use cat_pos::List;
use cat_region::Region;
use std::alloc::{AllocError, Global};
use std::marker::Model;

/// An answer to the atom of that number.
#[derive(Clone, Copy, PartialEq, Eq, Debug)]
pub struct Answer {
    pub atom: usize,
    pub yes: bool,
}

/// The answers that lead to a node of a tree: one for each split above it. Contracts see the last one first.
#[derive(Drop)]
pub struct Way {
    answers: List<Answer>,
}

impl Model for Way {
    ghost use Rattle.std.specs.Prelude.{List as Listed, reverse};
    ghost use Rattle.cat_search.specs.declared.way.Answer.{Answer as Answered};

    ghost Value = { Listed Answered };

    ghost view = { λ it. reverse it.answers };
}

impl Way {
    /// The way to the first node.
    pub fn new(alloc: Global) -> Way
        ensures { result ≡ [] }
    {
        Way {
            answers: List::new(alloc),
        }
    }

    fn push(&mut self, answer: Answer) -> Result<(), AllocError>
        ensures { OnOk result (self.new ≡ answer ∷ self.old) }
    {
        self.answers.push(answer)
    }

    fn pop(&mut self) -> Option<Answer>
        ensures { MatchOption result ((self.old ≡ []) × (self.new ≡ [])) (λ last. self.old ≡ last ∷ self.new) }
    {
        self.answers.pop()
    }

    /// Goes over to the false side of the last split on whose true side the way is, where there is one.
    fn turn(&mut self) -> Result<(), AllocError>
        ensures { OnOk result (self.new ≡ turned self.old) }
    {
        while let Some(Answer { atom, yes }) = self.pop() {
            if yes {
                return self.push(Answer { atom, yes: false });
            }
        }
        Ok(())
    }

    /// Goes from a node to the one behind it.
    fn pass(&mut self, node: TreeNode) -> Result<(), AllocError>
        ensures { OnOk result (self.new ≡ passed node self.old) }
    {
        match node {
            TreeNode::Split(atom) => self.push(Answer { atom, yes: true }),
            TreeNode::Leaf | TreeNode::Rest => self.turn(),
        }
    }

    /// Goes from the first of some nodes to the one behind them all. It costs a step for each node.
    pub fn go_on(&mut self, nodes: &[TreeNode]) -> Result<(), AllocError>
        ensures { OnOk result (self.new ≡ way_from self.old nodes.now) }
    {
        for &node in nodes {
            self.pass(node)?;
        }
        Ok(())
    }

    /// The answers, from the first one on.
    pub fn answers(&self) -> &[Answer]
        ensures { self.now ≡ reverse result.now }
    {
        self.answers.as_slice()
    }

    /// What the answers leave of all valuations of a table's terms. It costs the number of terms and of answers.
    pub fn region(&self, alloc: Global, table: &Table) -> Result<Region, AllocError>
        requires { IsTrue (ask_below (length table.now.atoms) self.now) }
        ensures { IfOk result (λ region. region ≡ led_to table.now.atoms (everything table.now.terms) self.now) }
    {
        following(alloc, table, self.answers.as_slice())
    }
}
