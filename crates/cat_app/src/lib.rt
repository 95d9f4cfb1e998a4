//! All that the program does, over a shelf and a sink that are handed in: words and files go in, one reply
//! and a status come out.
#![tactic(auto)]

mod asked_words;
mod audited;
mod checked;
mod dead;
mod drilled;
mod executed;
mod leaves;
mod listed;
mod many;
mod never;
mod number;
mod ran;
mod reply;
mod request;
mod runs;
mod scoped;
mod source;
mod status;
mod tabled;
mod texts;
mod top;

pub use leaves::leaf_count;
pub use number::{MOST_BANDS, bands_in};
pub use request::Mode;
pub use runs::{RUNS, Ran, run_all};
pub use source::{drill_source, income_input};
pub use status::Status;
pub use top::catala;
