// How strongly prefixes and operators bind.
ghost use Rattle.std.specs.Prelude.{◌≡◌, ◌≤◌};
ghost use Rattle.cat_tree.specs.Operators.{prefix_level, operator_level, left_level};

use cat_tree::{Operator, Prefix};

/// The level of a prefix, and of its operand.
pub(crate) fn prefix_level(prefix: Prefix) -> u32
    ensures { result ≡ prefix_level prefix }
{
    match prefix {
        Prefix::Not => 3,
        Prefix::Negate => 7,
        _ => 8,
    }
}

/// The level of the expression that an operator makes.
pub(crate) fn operator_level(operator: Operator) -> u32
    ensures value { result ≡ operator_level operator }
    ensures low { result ≤ 6 }
{
    match operator {
        Operator::Or | Operator::Xor => 1,
        Operator::And => 2,
        Operator::Plus | Operator::Minus => 5,
        Operator::Times | Operator::Divide => 6,
        _ => 4,
    }
}

/// The least level that an operator's left operand has.
pub(crate) fn left_level(operator: Operator) -> u32
    ensures { result ≡ left_level operator }
{
    match operator {
        Operator::Or | Operator::Xor => 1,
        Operator::And => 2,
        Operator::Times | Operator::Divide => 6,
        _ => 5,
    }
}
