//! Extracts the code blocks, headings and includes of a literate source, each with its position, and reads a main file
//! with the files that it includes.
#![tactic(auto)]

mod gatherer;
mod laws;
mod line;
mod pending;
mod segment;
mod source;
mod weaver;

pub use gatherer::gather;
pub use laws::told_sources_are_gathered;
pub use segment::{Heading, Headings, Segment, Segments, WeaveRefusal, Woven};
pub use source::{GatherRefusal, Source};
pub use weaver::weave;

#[cfg(test)]
mod gather_tests;
#[cfg(test)]
mod tests;
