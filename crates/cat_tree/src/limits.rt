// What expressions are limited to.
ghost use Rattle.std.specs.Prelude.{◌≡◌};
ghost use Rattle.cat_tree.specs.Limits.{most_height};

/// The height of an expression, parentheses counted.
pub const MOST_HEIGHT: u16 = 256;

/// The limit by which code counts is that of the definition.
pub fn the_height_is_limited_as_stated()
    ensures { MOST_HEIGHT ≡ most_height }
{}
