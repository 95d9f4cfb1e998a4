// What programs are limited to.

/// The items of a scope.
pub const MOST_ITEMS: usize = 4_096;

/// The definitions and rules of a program.
pub const MOST_DEFINITIONS: usize = 65_536;

/// The cases of an enumeration.
pub const MOST_CASES: usize = 128;

/// The parameters of a function.
pub const MOST_PARAMETERS: usize = 8;
