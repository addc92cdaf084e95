// A page under the control functions of ECMA-48: bytes in, cells on a panel out.
//
// `Page` is not started, or holds a size, a position, a rendition, stops, two modes, where the
// reader stands and what reply is owed; the cells are the panel's, and it keeps none of its own.
// `Page::start` begins on any kind of panel, `Page::deliver` lets bytes act on it through the first
// that requests a reply, `Page::view` hands out what it holds, and `Page::settle` says that the reply
// was sent. It writes no bytes: replies and pictures are made above it.

#![tactic(auto)]

mod acting;
mod cells;
mod delivering;
mod erasing;
mod moves;
pub mod page;
mod sheet;
pub mod state;
mod stops;
mod tabs;
pub mod view;
