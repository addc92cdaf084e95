// The column panel: a panel made outside the crate `panel`, over its trait alone.
//
// It stores the cells column by column on a slice that is lent, of any number of lines and columns for which the slice has room
// (the bounds of other kinds are not its own). A maker gives what the panel shows, a proof that it is sound, and the four calls;
// the shift, the window and all that is written for any panel then hold of it too.

#![tactic(auto)]

ghost use Rattle.std.specs.Prelude.{◌≡◌, ◌+◌, ◌*◌, ◌^◌, ◌<◌, ◌≤◌, length};
ghost use Rattle.panel.specs.Screens.{put_on, wipe_on};

use panel::{Cell, ERASED, Panel, Position, Size};
use refusal::Refusal;

// The memory has room for all cells: that is part of the type.
#[derive(Drop)]
pub struct ColumnPanel<'a> {
    cells: &'a mut [Cell],
    size: Size,
    ghost tall: { size.lines < 2 ^ 16 },
    ghost wide: { size.columns < 2 ^ 16 },
    ghost room: { size.lines * size.columns ≤ length cells.now },
}

impl<'a> ColumnPanel<'a> {
    ghost use Rattle.column_panel.specs.Columned.{stored_at, columned, column_shows};

    // A panel on memory that is lent. Memory too short for the size makes a panel with no lines and no columns.
    pub fn new(cells: &'a mut [Cell], size: Size) -> ColumnPanel<'a>
        ensures { column_shows result ≡ columned cells.entry.ghost_name size.lines size.columns cells.old }
    {
        let size = size.if_room(cells.len());
        ColumnPanel { cells, size }
    }

    // Where the cell at an index in reading order is stored.
    fn stored(&self, k: usize) -> usize
        requires { k < (column_shows self.now).grid.lines * (column_shows self.now).grid.columns }
        ensures is { result ≡ stored_at (column_shows self.now).grid.lines (column_shows self.now).grid.columns k }
        ensures low { result < length self.now.cells.now }
    {
        let lines = self.size.lines as usize;
        let columns = self.size.columns as usize;
        k % columns * lines + k / columns
    }

    // Puts a cell at an index in reading order.
    fn put(&mut self, k: usize, cell: Cell)
        requires { k < (column_shows self.old).grid.lines * (column_shows self.old).grid.columns }
        ensures { column_shows self.new ≡ put_on (column_shows self.old) k cell }
    {
        let at = self.stored(k);
        self.cells[at] = cell;
    }

    // Erases `count` cells from an index in reading order.
    fn erase_from(&mut self, k: usize, count: usize)
        requires { k + count ≤ (column_shows self.old).grid.lines * (column_shows self.old).grid.columns }
        ensures { column_shows self.new ≡ wipe_on (column_shows self.old) k count }
    {
        // Cell by cell: the cells of a run do not stand side by side in this memory.
        for i in 0..count {
            self.put(k + i, ERASED);
        }
    }
}

impl Panel for ColumnPanel<'_> {
    ghost use Rattle.column_panel.specs.Columned.{column_shows, column_sound};

    ghost shows = { column_shows };

    ghost sound = { column_sound };

    fn size(&self) -> Size {
        self.size
    }

    fn cell(&self, at: Position) -> Result<Cell, Refusal> {
        let k = self.size.find(at).ok_or(at.outside())?;
        Ok(self.cells[self.stored(k)])
    }

    fn set(&mut self, at: Position, cell: Cell) -> Result<(), Refusal> {
        let k = self.size.find(at).ok_or(at.outside())?;
        self.put(k, cell);
        Ok(())
    }

    fn erase(&mut self, from: Position, count: usize) -> Result<(), Refusal> {
        let k = self.size.find_run(from, count).ok_or(from.outside())?;
        self.erase_from(k, count);
        Ok(())
    }
}

#[cfg(test)]
mod tests;
