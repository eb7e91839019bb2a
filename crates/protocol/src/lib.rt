//! The lines of oracle/PROTOCOL.md: what `replay` reads, as orders with their values and as the words
//! that a call waits for, and what it prints.
#![tactic(auto)]

/// The calls that wait for words.
pub mod calls;
/// Numbers, as words of a line have them.
pub mod numbers;
/// A line as an order.
pub mod orders;
/// What a reply prints.
pub mod print;
/// How many words a shape has.
pub mod sizes;
/// A call that waits for its words.
pub mod waiting;
mod words;
