// Reads bytes with the control functions of ECMA-48 into functions and items.
//
// It knows nothing of pages or panels and gives no function an effect: it tells a graphic character,
// a control, a reset or a control sequence with its parameters from the bytes that spell it.
//
// `Reader::step` reads one byte and `Reader::read` a slice, wherever the bytes were cut before.
// `Reader::until_request` tells how many bytes go up to a request for a reply.
// `Items` is an iterator that cuts a slice into items, each a part of it; `count_items` walks to the end.
// `Item::sequence` tells the parameters, space and final byte of a sequence item that is within the bounds,
// `Item::string` the opener and body of a string item.

#![tactic(auto)]

mod cutting;
pub mod function;
pub mod item;
mod numbers;
pub mod parameters;
pub mod reader;
mod reading;
pub mod standing;
mod telling;

pub use cutting::count_items;
