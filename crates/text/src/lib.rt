//! The text of `trial`: the bytes that it prints of a block and of a refusal (docs/REFERENCE.md, 'trial').
#![tactic(auto)]

mod lines;
mod printing;

pub use lines::{BLOCK_ROOM, block_text, number_line, refusal_text};
