// How two values may be compared.
ghost use Rattle.std.specs.Prelude.{◌≡◌};
ghost use Rattle.cat_guard.specs.Comparisons.{comparison_of, turned};
ghost use Rattle.cat_audit_table.specs.inside.Seen.{seen, seen_of};

use cat_scope::BinaryOp;

/// How two values may be compared.
#[derive(Clone, Copy, PartialEq, Eq, Debug)]
pub enum Comparison {
    Less,
    AtMost,
    Greater,
    AtLeast,
    Equal,
    Unequal,
}

impl Comparison {
    /// The same comparison with its sides exchanged.
    pub fn turned(self) -> Comparison
        ensures { seen result ≡ turned (seen self) }
    {
        match self {
            Comparison::Less => Comparison::Greater,
            Comparison::AtMost => Comparison::AtLeast,
            Comparison::Greater => Comparison::Less,
            Comparison::AtLeast => Comparison::AtMost,
            Comparison::Equal => Comparison::Equal,
            Comparison::Unequal => Comparison::Unequal,
        }
    }
}

/// The comparison that an operator is.
pub fn comparison_of(op: BinaryOp) -> Option<Comparison>
    ensures { seen_of result ≡ comparison_of op }
{
    match op {
        BinaryOp::Less => Some(Comparison::Less),
        BinaryOp::AtMost => Some(Comparison::AtMost),
        BinaryOp::Greater => Some(Comparison::Greater),
        BinaryOp::AtLeast => Some(Comparison::AtLeast),
        BinaryOp::Equal => Some(Comparison::Equal),
        BinaryOp::Unequal => Some(Comparison::Unequal),
        _ => None,
    }
}
