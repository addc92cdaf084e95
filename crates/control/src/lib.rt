// Control functions with typed arguments, and renditions.
//
// `decode` says which control function a function of the reader selects: a table of finals, of
// single controls and of the values that select. It resolves missing and empty parameters, and
// gives no function an effect on a page: it knows neither pages nor panels.
// `Rendition` has nine aspects; its number stands for it in a cell, one number for each rendition.
// `parameter` of an aspect is what SGR sets it by.
// `Rendition::select` is SGR, and `Modes::with_all` is SM and RM, both on plain values.

#![tactic(auto)]

mod decoding;
pub mod function;
pub mod modes;
mod numbering;
pub mod rendition;
mod selecting;
mod setting;

pub use decoding::decode;
