// Lists of bound names and of faults.
use cat_names::Fault;
use cat_pos::{List, Text};

/// Texts of bound names.
pub type Texts = List<Text>;

/// Faults, in the order in which they were met.
pub type Faults = List<Fault>;
