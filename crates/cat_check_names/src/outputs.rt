// The outputs of a scope.

use crate::NameTable;
use cat_pos::Numbers;

/// The names of a scope's outputs, numbered among themselves, and the number of the item that each is.
#[derive(Drop)]
pub struct Outputs {
    pub names: NameTable,
    pub items: Numbers,
}
