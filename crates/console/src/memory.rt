// The memory behind a panel, in the order in which it is stored.
ghost use Rattle.std.specs.Prelude.{◌<◌};

use crate::call::Failure;
use panel::{Cell, Size};

// The memory of more cells is not printed, only counted.
const MOST_CELLS: usize = 200;

// A row for each line of the panel, with the number of its first element.
pub(crate) fn print_cells(rt: &HostRuntime, size: Size, cells: &[Cell]) -> Result<(), Failure> {
    let count = cells.len();
    if count > MOST_CELLS {
        println!(rt; "Memory: {count} cells, too many to be printed")?;
        return Ok(());
    }
    println!(rt; "Memory: {count} cells, each CODE:RENDITION")?;
    let length = row_length(size);
    for (i, row) in cells.chunks(length).enumerate() {
        let element = i.saturating_mul(length);
        print!(rt; "{element:>6} ")?;
        for cell in row {
            let code = cell.code;
            let rendition = cell.rendition;
            print!(rt; " {code:02X}:{rendition}")?;
        }
        rt.println("")?;
    }
    Ok(())
}

pub(crate) fn print_planes(rt: &HostRuntime, size: Size, bytes: &[u8]) -> Result<(), Failure> {
    let count = bytes.len();
    if size.cells() > MOST_CELLS {
        println!(rt; "Memory: {count} bytes, too many to be printed")?;
        return Ok(());
    }
    println!(rt; "Memory: {count} bytes, in three planes")?;
    let names = ["codes", "low", "high"];
    for (name, plane) in names.iter().zip(bytes.chunks(size.cells().max(1))) {
        println!(rt; "{name}")?;
        print_plane(rt, size, plane)?;
    }
    Ok(())
}

// The odd lines are stored in front of the even ones.
fn print_plane(rt: &HostRuntime, size: Size, plane: &[u8]) -> Result<(), Failure> {
    let odd_lines = (size.lines as usize + 1) / 2;
    let odd_length = odd_lines * size.columns as usize;
    let (odd, even) = plane.split_at(odd_length.min(plane.len()));
    print_every_other(rt, size, 1, odd)?;
    print_every_other(rt, size, 2, even)
}

// A row for each line, from the first on every other one.
fn print_every_other(
    rt: &HostRuntime,
    size: Size,
    first: u16,
    bytes: &[u8],
) -> Result<(), Failure> {
    let lines = (first..=u16::MAX).step_by(2);
    for (line, row) in lines.zip(bytes.chunks(row_length(size))) {
        print!(rt; "  line {line:>2} ")?;
        for byte in row {
            print!(rt; " {byte:02X}")?;
        }
        rt.println("")?;
    }
    Ok(())
}

// Rows of no element would have no end, so there is one at least.
fn row_length(size: Size) -> usize
    ensures { 0 < result }
{
    size.columns.max(1) as usize
}
