//! The lines of one operation: how many were run, and how many answers differed.
use std::fmt;

/// The counts of one operation's lines.
#[derive(Clone, Copy, Debug, Default)]
pub struct Tally {
    runs: u64,
    differ: u64,
}

impl Tally {
    pub(crate) fn count(&mut self, differs: bool) {
        self.runs = self.runs.wrapping_add(1);
        self.differ = self.differ.wrapping_add(u64::from(differs));
    }
}

impl fmt::Display for Tally {
    fn fmt<W: fmt::Write>(&self, f: &mut fmt::Formatter<W>) -> fmt::Result {
        write!(f, "{} vectors, {} differ", self.runs, self.differ)
    }
}
