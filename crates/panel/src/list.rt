// The list panel: cells that are lent, line by line.
ghost use Rattle.std.specs.Prelude.{◌≡◌, ◌+◌, ◌*◌, ◌≤◌, length, replicate};
ghost use Rattle.panel.specs.Grids.{erased, wiped};

use crate::{Cell, ERASED, NO_SIZE, Panel, Position, Size};
use refusal::Refusal;
use std::mem::take;

// The memory has room for all cells: that is part of the type.
#[derive(Drop)]
pub struct ListPanel<'a> {
    cells: &'a mut [Cell],
    size: Size,
    ghost few_lines: { size.lines ≤ 64 },
    ghost few_columns: { size.columns ≤ 132 },
    ghost room: { size.lines * size.columns ≤ length cells.now },
}

// Erases each cell.
fn fill(cells: &mut [Cell])
    ensures { cells.new ≡ replicate (length cells.old) erased }
{
    cells.fill(ERASED);
}

// Erases `count` cells from the index `at`, and no other. It is a rule of the panel that its cells are lent as a whole to one function,
// which lends the middle of them to another: what is filled reaches no other cell.
fn fill_run(cells: &mut [Cell], at: usize, count: usize)
    requires { at + count ≤ length cells.old }
    ensures { cells.new ≡ wiped cells.old at count }
{
    fill(&mut cells[at..at + count]);
}

// Without lines and columns, on no memory.
impl Default for ListPanel<'_> {
    ghost use Rattle.panel.specs.Grids.{no_grid};
    ghost use Rattle.panel.specs.Listed.{list_shows};

    ghost is_default = { λ p. (list_shows p).grid ≡ no_grid };

    fn default() -> Self {
        ListPanel {
            cells: &mut [],
            size: NO_SIZE,
        }
    }
}

impl<'a> ListPanel<'a> {
    ghost use Rattle.panel.specs.Listed.{listed, list_shows};

    // A panel on memory that is lent. A size outside 1 to 64 lines by 1 to 132 columns, or memory that is too short for it,
    // makes a panel with no lines and no columns. No cell is changed.
    pub fn new(cells: &'a mut [Cell], size: Size) -> ListPanel<'a>
        ensures { list_shows result ≡ listed cells.entry.ghost_name size.lines size.columns cells.old }
    {
        let size = size.on_memory(cells.len());
        ListPanel { cells, size }
    }
}

impl Panel for ListPanel<'_> {
    ghost use Rattle.panel.specs.Listed.{list_shows, list_sound};

    ghost shows = { list_shows };

    ghost sound = { list_sound };

    fn size(&self) -> Size {
        self.size
    }

    fn cell(&self, at: Position) -> Result<Cell, Refusal> {
        if self.size.has(at) {
            Ok(self.cells[self.size.index(at)])
        } else {
            Err(at.outside())
        }
    }

    fn set(&mut self, at: Position, cell: Cell) -> Result<(), Refusal> {
        if self.size.has(at) {
            self.cells[self.size.index(at)] = cell;
            Ok(())
        } else {
            Err(at.outside())
        }
    }

    fn erase(&mut self, from: Position, count: usize) -> Result<(), Refusal> {
        let k = self.size.find_run(from, count).ok_or(from.outside())?;
        fill_run(self.cells, k, count);
        Ok(())
    }

    fn copy(&mut self, from: Position, to: Position, count: u16) -> Result<(), Refusal> {
        // By `cell` and `set`, one cell at a time, and not by `copy_within`: a rule of this panel. In the call's own hands nothing else
        // reaches it, so that its size need not be looked at again after each cell.
        let mut panel = take(self);
        let answer = panel.copy_cells(from, to, count);
        *self = panel;
        answer
    }
}
