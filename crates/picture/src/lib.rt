// Writes control functions of ECMA-48 as bytes: what a user asks for, the reply that a page owes, and
// the picture of a page.
//
// Every call writes at the front of a lent buffer and answers the length. It is refused before the
// first byte is written, so that a refused call leaves the buffer as it was; bytes past the length stay.
// Nothing is allocated, and a buffer that is too short is told the length that was needed.
//
// `write_text`, `write_control`, `write_sequence` and `write_string` write what the item reader reads
// back as that very item; `rewrite` writes a sequence again that was read.
// `reply` writes the reply that a page owes, and settles it; it looks at no panel.
// `picture` writes the bytes that make any page of the same size, outside an SOS string, equal to this
// one; page and panel stay as they are.
//
// It gives no function an effect and reads no bytes: those are the page's and the reader's.

#![tactic(auto)]

mod cells;
mod draw;
mod foreign;
mod front;
mod out;
mod picturing;
mod pieces;
mod places;
mod ranges;
mod renditions;
mod replying;
mod stops;
mod writer;

pub use picturing::picture;
pub use replying::reply;
pub use writer::{rewrite, write_control, write_sequence, write_string, write_text};
