// What bounds an expression.
use crate::behind::Behind;

/// What bounds an expression: how high its parts may be, what may follow it, and the level at which it stands.
#[derive(Clone, Copy)]
pub struct Limits {
    pub below: u16,
    pub behind: Behind,
    pub level: u32,
}
