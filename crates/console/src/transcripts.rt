// Lists of turns for bytes as a cable cuts them, and what they came to.
ghost use Rattle.std.specs.Prelude.{◌≤◌};

use crate::call::Failure;
use reader::reader::Reader;
use std::alloc::{AllocError, Global};
use turns::turn::{Transcript, Turn};

// The room for a reply.
const REPLY: usize = 16;

// Each piece is cut again behind a request, where a delivery of it would stop; a reply is tried after each delivery.
pub(crate) fn list_of<'a>(
    heap: Global,
    parts: &[(&'a str, &'a [u8])],
    piece: usize,
) -> Result<Vec<Turn<'a>>, AllocError>
    requires { 1 ≤ piece }
{
    let mut list = Vec::new(heap);
    let mut reader = Reader::new();
    for (_, bytes) in parts {
        for bytes in bytes.chunks(piece) {
            add(&mut list, &mut reader, bytes)?;
        }
    }
    Ok(list)
}

fn add<'a>(
    list: &mut Vec<Turn<'a>>,
    reader: &mut Reader,
    bytes: &'a [u8],
) -> Result<(), AllocError> {
    let mut rest = bytes;
    // No piece is cut more often than it has bytes; a `while` would owe a proof that each front has one.
    for _ in bytes {
        if rest.is_empty() {
            break;
        }
        let (front, back) = rest.split_at(reader.until_request(rest).min(rest.len()));
        let _ = reader.read(front);
        list.push(Turn::Deliver(front))?;
        list.push(Turn::Reply(REPLY))?;
        rest = back;
    }
    Ok(())
}

pub(crate) fn print(rt: &HostRuntime, name: &str, transcript: &Transcript) -> Result<(), Failure> {
    let answers = &transcript.answers;
    let accepted = answers.iter().filter(|answer| answer.is_ok()).count();
    let refused = answers.len().saturating_sub(accepted);
    let written = transcript.written.len();
    println!(rt;
        "{name}: turns accepted {accepted}, refused {refused}; bytes of replies {written}"
    )?;
    if let Some(refusal) = answers.iter().rev().find_map(|answer| answer.err()) {
        println!(rt; "{name}: the last was refused {refusal}")?;
    }
    Ok(())
}
