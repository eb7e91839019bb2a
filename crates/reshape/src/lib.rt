//! Extend, split and convert: buffers of another shape, each stored in a lent slice of just its length
//! (docs/REFERENCE.md, 'Extend and split' and 'Conversion'). Each public call answers for every input: with the shapes
//! of its results, or with one refusal of docs/REFERENCE.md, 'Refusals', and all lent memory unchanged.
#![tactic(auto)]

mod converting;
mod fitting;
mod joining;
mod known;
mod parting;
mod parts;
mod resampling;

pub use converting::{convert, convert_with, converted_shape, converted_shape_with};
pub use joining::{extend, extended_shape};
pub use known::known_reshape;
pub use parting::{split, split_shapes};
