// Nodes, and references to them.
ghost use Rattle.std.specs.Prelude.{◌≡◌, ◌-◌, ◌↔◌};

use cat_date::{Day, Span};
use cat_num::{Frac, Money, Whole};
use cat_pos::List;

/// The number of a node of a pool, which counts them from 0.
pub type Ref = u32;

pub type References = List<Ref>;

/// The parts of a list or of a structure: a range of the references that a pool keeps.
#[derive(Clone, Copy, PartialEq, Eq, Debug)]
pub struct Refs {
    pub start: u32,
    pub end: u32,
}

/// A value of which each part is another node. It takes 24 bytes.
#[derive(Clone, Copy, Debug)]
pub enum PoolNode {
    Boolean(bool),
    Integer(Whole),
    Decimal(Frac),
    Money(Money),
    Date(Day),
    Duration(Span),
    List(Refs),
    Structure(Refs),
    Case(u32, Option<Ref>),
}
