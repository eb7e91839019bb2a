//! a times b plus c, rounded once, and the same narrowed to `f32` (docs/REFERENCE.md, 'Rounding'). Each
//! contract equates the result with the definition of `specs/Fused.antt`, narrowed as `rounding` defines
//! it. It is worked out from bits, and calls no `mul_add`, so that it is the same on each machine.
#![tactic(auto)]

mod fused;
mod fused_narrow;
mod known;

pub use fused::fma;
pub use fused_narrow::fma_narrow;
pub use known::known_fused;
