// Buffers of a turn, and what is kept of them.
ghost use Rattle.std.specs.Prelude.{◌≡◌, ◌+◌, ◌≤◌, ◌++◌, length, take, IfOk, vec_len, vec_capacity};
ghost use Rattle.refusal.specs.Table.{answer};
ghost use Rattle.turns.specs.Running.{count_of};

use refusal::Refusal;
use std::alloc::{AllocError, Global};

// Adds what a call wrote at the buffer's front: as many bytes as it answered.
pub(crate) fn keep(said: Result<usize, Refusal>, buffer: &[u8], written: &mut Vec<u8>)
    requires counts { count_of (answer said) ≤ length buffer.now }
    requires room { vec_len written.old + length buffer.now ≤ vec_capacity written.old }
    ensures { written.new.items ≡ written.old.items ++ take (count_of (answer said)) buffer.now }
{
    let _ = written.extend_from_slice(&buffer[..said.unwrap_or(0)]);
}

// A buffer of `room` bytes, with as much room in `written`.
pub(crate) fn buffer_of(
    heap: Global,
    room: usize,
    written: &mut Vec<u8>,
) -> Result<Vec<u8>, AllocError>
    ensures same { written.new.items ≡ written.old.items }
    ensures made { IfOk result (λ b. (vec_len b ≡ room) × (vec_len written.new + room ≤ vec_capacity written.new)) }
{
    written.reserve(room)?;
    Ok(vec![in heap; 0; room]?)
}
