//! The surface trees of a program: what the parser reads, each node with its position.
#![tactic(auto)]

mod expression;
mod heights;
mod limits;
mod name;
mod program;

pub use expression::{
    Accumulation, Each, Node, Nodes, Operator, Pattern, Prefix, SurfaceArm, SurfaceArms,
    SurfaceField, SurfaceFields, SurfaceLiteral, Unit,
};
pub use heights::height;
pub use limits::{MOST_HEIGHT, the_height_is_limited_as_stated};
pub use name::{Base, CaseName, Name, Names, Type};
pub use program::{
    Block, CaseItem, Exception, FieldItem, FieldItems, Fulfilled, Item, Lead, SurfaceLabel,
    TargetName, Tree, Use, Variable, VariableKind,
};
