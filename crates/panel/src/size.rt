// A size, the lines and columns within it, and the index of each in reading order: how many cells come before it.
ghost use Rattle.std.specs.Prelude.{◌≡◌, ◌*◌, true, if◌then◌else◌};
ghost use Rattle.panel.specs.Grids.{within, index_in, no_grid, size_of};
ghost use Rattle.panel.specs.Copies.{part_within};
ghost use Rattle.panel.specs.Places.{located, run_located};
ghost use Rattle.panel.specs.Memories.{fitting, roomy};

use crate::Position;

// A number of lines and of columns.
#[derive(Debug, Clone, Copy, PartialEq, Eq)]
pub struct Size {
    pub lines: u16,
    pub columns: u16,
}

pub const NO_SIZE: Size = Size {
    lines: 0,
    columns: 0,
};

// The bounds of a panel on lent memory.
const MOST_LINES: u16 = 64;

const MOST_COLUMNS: u16 = 132;

impl Size {
    // How many cells there are.
    pub fn cells(self) -> usize
        ensures { result ≡ self.lines * self.columns }
    {
        self.lines as usize * self.columns as usize
    }

    // Whether a line and column are within the size.
    pub(crate) fn has(self, at: Position) -> bool
        ensures { result ≡ within self.lines self.columns at.line at.column }
    {
        (1..=self.lines).contains(&at.line) && (1..=self.columns).contains(&at.column)
    }

    // The index of a line and column within it.
    pub(crate) fn index(self, at: Position) -> usize
        requires { within self.lines self.columns at.line at.column ≡ true }
        ensures { result ≡ index_in self.columns at.line at.column }
    {
        (at.line as usize - 1) * self.columns as usize + (at.column as usize - 1)
    }

    // The index of a line and column, if they are within the size.
    pub fn find(self, at: Position) -> Option<usize>
        ensures { result ≡ located self at.line at.column }
    {
        // Not by `then`: the closure would need a contract of its own.
        if self.has(at) {
            Some(self.index(at))
        } else {
            None
        }
    }

    // The index of a line and column from which `count` cells lie within the size.
    pub fn find_run(self, from: Position, count: usize) -> Option<usize>
        ensures { result ≡ run_located self from.line from.column count }
    {
        let k = self.find(from)?;
        (count <= self.cells() - k).then_some(k)
    }

    // Whether some cells of a line, and the place where they begin, are within the size.
    pub(crate) fn has_part(self, from: Position, count: u16) -> bool
        ensures { result ≡ part_within self.lines self.columns from count }
    {
        self.has(from) && from.column as u32 + count as u32 <= self.columns as u32 + 1
    }

    // The size of a panel that is made on memory for `room` cells: that asked for, or no lines and no columns.
    // The product is formed of a good size only.
    pub(crate) fn on_memory(self, room: usize) -> Size
        ensures { result ≡ (if fitting self.lines self.columns room then self else size_of no_grid) }
    {
        if (1..=MOST_LINES).contains(&self.lines)
            && (1..=MOST_COLUMNS).contains(&self.columns)
            && self.cells() <= room
        {
            self
        } else {
            NO_SIZE
        }
    }

    // The size that a panel shows of memory for `room` cells: its own, or no lines and no columns if they have no room.
    pub fn if_room(self, room: usize) -> Size
        ensures { result ≡ (if roomy self room then self else size_of no_grid) }
    {
        if self.cells() <= room { self } else { NO_SIZE }
    }
}
