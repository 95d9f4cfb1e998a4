// What may follow an expression that it could go on with itself.

/// What may follow an expression that it could go on with itself: the arms of a match that asks for it, behind `with
/// pattern`; or another field behind a field's value.
#[derive(Clone, Copy)]
pub enum Behind {
    Other,
    Pattern,
    Field,
}
