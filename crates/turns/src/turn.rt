// A turn of a page, and what turns answered and wrote.
use refusal::Refusal;

// A call by its arguments alone: the bytes of a delivery, or the length of a buffer.
#[derive(Clone, Copy, Debug, PartialEq, Eq)]
pub enum Turn<'a> {
    Deliver(&'a [u8]),
    Reply(usize),
    Picture(usize),
}

// The answers of turns in order, and all that they wrote.
#[derive(Drop)]
pub struct Transcript {
    pub answers: Vec<Result<usize, Refusal>>,
    pub written: Vec<u8>,
}
