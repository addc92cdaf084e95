// The command `items`: bytes as the reader reads them, piece by piece and item by item.
use crate::call::Failure;
use crate::line::Line;
use crate::pieces;
use reader::count_items;
use reader::item::{Item, Items, Kind};
use std::fs;

// How many bytes of a file come in one piece.
const PIECE: usize = 7;

pub(crate) fn run(rt: &HostRuntime, path: String) -> Result<(), Failure> {
    let bytes = fs::read(rt, &path).map_err(|why| Failure::Unread(path, why))?;
    let pieces: Vec<&[u8]> = bytes.chunks(PIECE).collect(rt.alloc())?;
    print_bytes(rt, &pieces, &bytes)
}

pub(crate) fn print_bytes(rt: &HostRuntime, pieces: &[&[u8]], bytes: &[u8]) -> Result<(), Failure> {
    let length = bytes.len();
    let count = pieces.len();
    println!(rt; "Bytes: {length}, in pieces: {count}")?;
    pieces::print_pieces(rt, pieces)?;
    print_items(rt, bytes)?;
    pieces::print_end(rt, bytes)?;
    Ok(())
}

fn print_items(rt: &HostRuntime, bytes: &[u8]) -> Result<(), Failure> {
    rt.println("")?;
    rt.println("Items, and the bytes of those that are no text.")?;
    rt.println(" place  length  kind      performs                            bytes")?;
    for item in Items::new(bytes) {
        print_item(rt, &item)?;
    }
    rt.println("")?;
    let count = count_items(bytes);
    println!(rt; "Items: {count}")?;
    Ok(())
}

fn print_item(rt: &HostRuntime, item: &Item) -> Result<(), Failure> {
    let place = item.place;
    let length = item.bytes.len();
    let kind = item.kind;
    let performs = Line::of_functions(rt.alloc(), item.bytes)?;
    print!(rt; "{place:>6}  {length:>6}  {kind:<8}  ")?;
    match item.kind {
        Kind::Text => println!(rt; "{performs}")?,
        _ => {
            let bytes = Line::of_bytes(rt.alloc(), item.bytes)?;
            println!(rt; "{performs:<34}  {bytes}")?;
        }
    }
    Ok(())
}
