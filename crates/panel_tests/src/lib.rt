// Tests of panels and refusals against stored layouts: a crate of its own, so that the crates tested are proved once.
//
// A text stands for the codes of a panel in reading order, with a point for the erased cell.

#![tactic(auto)]

use panel::{Cell, ERASED, Panel, Position, Rectangle, Size};
use refusal::Refusal;

#[cfg(test)]
mod kinds;
#[cfg(test)]
mod refusals;
#[cfg(test)]
mod shifts;
#[cfg(test)]
mod windows;

fn cell_for(byte: u8) -> Cell {
    if byte == b'.' {
        ERASED
    } else {
        Cell {
            code: byte,
            rendition: 0,
        }
    }
}

pub fn at(line: u16, column: u16) -> Position {
    Position { line, column }
}

pub fn size(lines: u16, columns: u16) -> Size {
    Size { lines, columns }
}

// The answer to a call that is refused as off the panel, at this line and column.
pub fn outside(line: u16, column: u16) -> Result<(), Refusal> {
    Err(Refusal::OutsidePanel { line, column })
}

// Sets the cells of a panel, from its first one on, to those of a text.
pub fn write<P: Panel>(panel: &mut P, text: &[u8]) {
    for (at, byte) in panel.size().positions().zip(text) {
        let _ = panel.set(at, cell_for(*byte));
    }
}

// Whether the cells of a panel are those of a text.
pub fn reads<P: Panel>(panel: &P, text: &[u8]) -> bool {
    let size = panel.size();
    size.cells() == text.len()
        && size
            .positions()
            .zip(text)
            .all(|(at, byte)| panel.cell(at) == Ok(cell_for(*byte)))
}

pub fn rectangle(top: u16, left: u16, lines: u16, columns: u16) -> Rectangle {
    Rectangle {
        top,
        left,
        lines,
        columns,
    }
}
