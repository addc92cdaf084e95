// The bytes read piece by piece.
use crate::shown::StandingShown;
use reader::reader::Reader;
use reader::standing::Standing;
use std::io;

pub(crate) fn print_pieces(rt: &HostRuntime, pieces: &[&[u8]]) -> io::Result<()> {
    rt.println("")?;
    rt.println(
        "Pieces. Taken: the bytes up to and with the first request for a reply, all where there is none.",
    )?;
    rt.println(" place  length   taken  functions  where the reader then stands")?;
    let mut reader = Reader::new();
    let mut place = 0usize;
    for piece in pieces {
        let length = piece.len();
        let taken = reader.until_request(piece);
        let functions = reader.read(piece);
        let standing = StandingShown(reader.standing());
        println!(rt; "{place:>6}  {length:>6}  {taken:>6}  {functions:>9}  {standing}")?;
        place = place.saturating_add(length);
    }
    Ok(())
}

// All the bytes at once, and where they leave the reader.
pub(crate) fn print_end(rt: &HostRuntime, bytes: &[u8]) -> io::Result<()> {
    let mut reader = Reader::new();
    let functions = reader.read(bytes);
    println!(rt; "Functions: {functions}")?;
    match reader.standing() {
        Standing::Rest => rt.println("The reader ends at rest."),
        standing => {
            let standing = StandingShown(standing);
            println!(rt; "The reader does not end at rest: it stands {standing}.")
        }
    }
}
