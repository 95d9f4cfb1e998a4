// The operators by their numbers, with the types that they take and give.
ghost use Rattle.std.specs.Prelude.{◌≡◌, slice_get};
ghost use Rattle.cat_code.specs.Operations.{operation};
ghost use Rattle.cat_verify_shapes.specs.inside.Operators.{IsNamed};

use crate::forms::Form;

#[derive(Clone, Copy)]
pub(crate) enum Operator {
    /// What it takes, and what it gives.
    Before(Form, Form),
    /// What it takes on the left and on the right, and what it gives.
    Between(Form, Form, Form),
    /// Two of one type, which has an order where that is asked, and else may be a boolean too.
    Compares(bool),
}

/// The operators from number 1 on.
const OPERATORS: [Operator; 45] = [
    Operator::Between(Form::Whole, Form::Whole, Form::Whole),
    Operator::Between(Form::Whole, Form::Whole, Form::Whole),
    Operator::Between(Form::Whole, Form::Whole, Form::Whole),
    Operator::Between(Form::Whole, Form::Whole, Form::Fraction),
    Operator::Between(Form::Fraction, Form::Fraction, Form::Fraction),
    Operator::Between(Form::Fraction, Form::Fraction, Form::Fraction),
    Operator::Between(Form::Fraction, Form::Fraction, Form::Fraction),
    Operator::Between(Form::Fraction, Form::Fraction, Form::Fraction),
    Operator::Between(Form::Amount, Form::Amount, Form::Amount),
    Operator::Between(Form::Amount, Form::Amount, Form::Amount),
    Operator::Between(Form::Amount, Form::Fraction, Form::Amount),
    Operator::Between(Form::Fraction, Form::Amount, Form::Amount),
    Operator::Between(Form::Amount, Form::Whole, Form::Amount),
    Operator::Between(Form::Whole, Form::Amount, Form::Amount),
    Operator::Between(Form::Amount, Form::Fraction, Form::Amount),
    Operator::Between(Form::Amount, Form::Whole, Form::Amount),
    Operator::Between(Form::Amount, Form::Amount, Form::Fraction),
    Operator::Between(Form::Day, Form::Span, Form::Day),
    Operator::Between(Form::Day, Form::Span, Form::Day),
    Operator::Between(Form::Day, Form::Day, Form::Span),
    Operator::Between(Form::Span, Form::Span, Form::Span),
    Operator::Between(Form::Span, Form::Span, Form::Span),
    Operator::Between(Form::Span, Form::Whole, Form::Span),
    Operator::Before(Form::Whole, Form::Whole),
    Operator::Before(Form::Fraction, Form::Fraction),
    Operator::Before(Form::Amount, Form::Amount),
    Operator::Before(Form::Span, Form::Span),
    Operator::Before(Form::Truth, Form::Truth),
    Operator::Between(Form::Truth, Form::Truth, Form::Truth),
    Operator::Compares(true),
    Operator::Compares(true),
    Operator::Compares(true),
    Operator::Compares(true),
    Operator::Compares(false),
    Operator::Compares(false),
    Operator::Before(Form::Fraction, Form::Whole),
    Operator::Before(Form::Whole, Form::Fraction),
    Operator::Before(Form::Amount, Form::Fraction),
    Operator::Before(Form::Fraction, Form::Amount),
    Operator::Before(Form::Whole, Form::Amount),
    Operator::Before(Form::Fraction, Form::Fraction),
    Operator::Before(Form::Amount, Form::Amount),
    Operator::Before(Form::Day, Form::Whole),
    Operator::Before(Form::Day, Form::Whole),
    Operator::Before(Form::Day, Form::Whole),
];

fn entry_at(table: &[Operator], at: usize) -> Option<Operator>
    ensures { result ≡ slice_get table.now at }
{
    table.get(at).copied()
}

/// The operator of a number.
pub(crate) fn operator_of(number: u32) -> Option<Operator>
    ensures { IsNamed (operation number) result }
{
    if number == 0 {
        return None;
    }
    entry_at(&OPERATORS, number as usize - 1)
}
