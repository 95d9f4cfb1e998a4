// The log of a run.
use cat_pos::List;

/// A target whose judging ended, and the definition that held there, where one did: their numbers in the code's tables.
#[derive(Clone, Copy, PartialEq, Eq, Debug)]
pub struct LogEntry {
    pub target: u32,
    pub definition: Option<u32>,
}

pub type Log = List<LogEntry>;
