// Lists of turns: deliveries, replies and pictures, on one page or on two. A page and its panel are passed side by side, as to the page's
// own calls: it may be given another panel, and then refuses it.

#![tactic(auto)]

mod buffers;
pub mod comparing;
pub mod copying;
pub mod running;
pub mod running_two;
pub mod turn;
