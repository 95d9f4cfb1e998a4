//! Keys of terms and of atoms, which are the same exactly where these are one.
#![tactic(auto)]

mod atom;
mod form;
mod key;
mod key_laws;
mod literal;
mod operator;
mod path;
mod spell;
mod spelling_laws;
mod term;

pub use atom::atom_key;
pub use key::Key;
pub use key_laws::terms_have_one_key_where_they_are_one;
pub use path::path_key;
pub use spell::Place;
pub use spelling_laws::cuts_have_the_same_numbers_where_they_are_one;
pub use term::term_key;
