// Panels: lines and columns of cells, counted from 1, behind one trait.
//
// `Panel` is the trait: size, cell, set and erase. What a panel means is a grid of cells and what lies beyond them, which no call
// changes; a call that names a cell off the panel is refused and changes nothing. `ListPanel` and `ModulePanel` work on memory
// that is lent, `Window` shows a rectangle of any panel, and `Lent` is a panel that is lent for a while.
//
// `Size::positions` goes over the positions of a size in reading order, one for each cell.
//
// For any panel: `shift` moves the cells of a rectangle within it, and `clear` erases all. `clear_cells` and `clear_bytes` do that
// to memory, and say of each element what it holds afterwards.
//
// This crate knows no bytes that are read, no control function and no page. `docs/PANELS.md` has the layouts, drawn.

#![tactic(auto)]

ghost use Rattle.std.specs.Prelude.{◌≡◌};
ghost use Rattle.refusal.specs.Table.{answer};
ghost use Rattle.panel.specs.Grids.{size_of, cell_answer, done_if, on, run_on};
ghost use Rattle.panel.specs.Screens.{Screen, Sound, set_on, erase_on};
ghost use Rattle.panel.specs.Copies.{copy_answer, copy_on};

use refusal::Refusal;

mod borrowed;
mod cell;
mod clearing;
mod lines;
mod list;
mod module;
mod planes;
mod positions;
mod rectangle;
mod shifting;
mod size;
mod window;

pub use borrowed::Lent;
pub use cell::{Cell, ERASED, Position};
pub use clearing::{clear, clear_bytes, clear_cells};
pub use list::ListPanel;
pub use module::ModulePanel;
pub use positions::Positions;
pub use rectangle::Rectangle;
pub use shifting::{Direction, shift};
pub use size::{NO_SIZE, Size};
pub use window::Window;

pub trait Panel {
    // The cells, and what lies beyond them.
    ghost shows: { Self → Screen };

    // What the maker of a panel proves of it.
    ghost sound: { (p : Self) → Sound (shows p) };

    // The lines and columns, which never change.
    fn size(&self) -> Size
        ensures { result ≡ size_of (shows self.now).grid };

    // The cell at a line and column.
    fn cell(&self, at: Position) -> Result<Cell, Refusal>
        ensures { answer result ≡ cell_answer (shows self.now).grid at.line at.column };

    // Puts a cell at a line and column.
    fn set(&mut self, at: Position, cell: Cell) -> Result<(), Refusal>
        ensures says { answer result ≡ done_if (on (shows self.old).grid at.line at.column) at.line at.column }
        ensures after { shows self.new ≡ set_on (shows self.old) at.line at.column cell };

    // Erases `count` cells in reading order, from a line and column.
    fn erase(&mut self, from: Position, count: usize) -> Result<(), Refusal>
        ensures says { answer result ≡ done_if (run_on (shows self.old).grid from.line from.column count) from.line from.column }
        ensures after { shows self.new ≡ erase_on (shows self.old) from.line from.column count };

    // Copies `count` cells of a line to a place in this or another line, as if all were read before one is written.
    // A maker need not write it: it is done by the calls above. One that knows a shorter way to its cells may.
    fn copy(&mut self, from: Position, to: Position, count: u16) -> Result<(), Refusal>
        ensures says { answer result ≡ copy_answer (shows self.old).grid from to count }
        ensures after { shows self.new ≡ copy_on (shows self.old) from to count }
    {
        self.copy_cells(from, to, count)
    }

    // The same, cell by cell: the first one first, unless it would be written over one that is still to be read.
    fn copy_cells(&mut self, from: Position, to: Position, count: u16) -> Result<(), Refusal>
        ensures says { answer result ≡ copy_answer (shows self.old).grid from to count }
        ensures after { shows self.new ≡ copy_on (shows self.old) from to count }
    {
        let size = self.size();
        if !size.has_part(from, count) {
            return Err(from.outside());
        }
        if !size.has_part(to, count) {
            return Err(to.outside());
        }
        // Two loops: one body for both would have to ask at each cell which one comes next.
        if from.line != to.line || to.column <= from.column {
            for i in 0..count {
                let Ok(cell) = self.cell(from.right_by(i)) else {
                    unreachable()
                };
                let Ok(()) = self.set(to.right_by(i), cell) else {
                    unreachable()
                };
            }
        } else {
            for i in (0..count).rev() {
                let Ok(cell) = self.cell(from.right_by(i)) else {
                    unreachable()
                };
                let Ok(()) = self.set(to.right_by(i), cell) else {
                    unreachable()
                };
            }
        }
        Ok(())
    }
}
