// The module panel: bytes that are lent, in three planes: codes, low rendition bytes, high rendition bytes.
// In each plane the odd lines come first, then the even ones.
ghost use Rattle.std.specs.Prelude.{◌≡◌, ◌+◌, ◌*◌, ◌<◌, ◌≤◌, length};
ghost use Rattle.panel.specs.Screens.{put_on};

use crate::lines::Lines;
use crate::planes::{gather, plane_row, scatter};
use crate::{Cell, ERASED, NO_SIZE, Panel, Position, Size};
use refusal::Refusal;
use std::mem::take;

// The memory has room for all planes: that is part of the type.
#[derive(Drop)]
pub struct ModulePanel<'a> {
    bytes: &'a mut [u8],
    size: Size,
    ghost few_lines: { size.lines ≤ 64 },
    ghost few_columns: { size.columns ≤ 132 },
    ghost room: { 3 * (size.lines * size.columns) ≤ length bytes.now },
}

// Without lines and columns, on no memory.
impl Default for ModulePanel<'_> {
    ghost use Rattle.panel.specs.Grids.{no_grid};
    ghost use Rattle.panel.specs.Moduled.{module_shows};

    ghost is_default = { λ p. (module_shows p).grid ≡ no_grid };

    fn default() -> Self {
        ModulePanel {
            bytes: &mut [],
            size: NO_SIZE,
        }
    }
}

impl<'a> ModulePanel<'a> {
    ghost use Rattle.panel.specs.Moduled.{row_of, moduled, module_shows};

    // A panel on memory that is lent. A size outside 1 to 64 lines by 1 to 132 columns, or memory that is too short for it,
    // makes a panel with no lines and no columns. No byte is changed.
    pub fn new(bytes: &'a mut [u8], size: Size) -> ModulePanel<'a>
        ensures { module_shows result ≡ moduled bytes.entry.ghost_name size.lines size.columns bytes.old }
    {
        let size = size.on_memory(bytes.len() / 3);
        ModulePanel { bytes, size }
    }

    // The place in each plane of a line and column, counted from 0.
    fn stored(&self, line: usize, column: usize) -> usize
        requires { (line < (module_shows self.now).grid.lines) × (column < (module_shows self.now).grid.columns) }
        ensures { result ≡ row_of (module_shows self.now).grid.lines line * (module_shows self.now).grid.columns + column }
    {
        plane_row(self.size.lines as usize, line) * self.size.columns as usize + column
    }

    // Puts a cell at a line and column, counted from 0.
    fn put(&mut self, line: usize, column: usize, cell: Cell)
        requires { (line < (module_shows self.old).grid.lines) × (column < (module_shows self.old).grid.columns) }
        ensures { module_shows self.new ≡ put_on (module_shows self.old) (line * (module_shows self.old).grid.columns + column) cell }
    {
        let at = self.stored(line, column);
        scatter(self.bytes, self.size.cells(), at, cell);
    }
}

impl Lines for ModulePanel<'_> {
    ghost use Rattle.panel.specs.Moduled.{module_shows, module_sound};

    ghost seen = { module_shows };

    ghost seen_sound = { module_sound };

    fn columns(&self) -> usize {
        self.size.columns as usize
    }

    fn erase_in_line(&mut self, at: usize, count: usize) {
        let columns = self.columns();
        let line = at / columns;
        let column = at % columns;
        // Cell by cell: three fills, one in each plane, would say at three places of the memory what `put` says at one.
        for i in 0..count {
            self.put(line, column + i, ERASED);
        }
    }
}

impl Panel for ModulePanel<'_> {
    ghost use Rattle.panel.specs.Moduled.{module_shows, module_sound};

    ghost shows = { module_shows };

    ghost sound = { module_sound };

    fn size(&self) -> Size {
        self.size
    }

    fn cell(&self, at: Position) -> Result<Cell, Refusal> {
        if self.size.has(at) {
            let k = self.stored(at.line as usize - 1, at.column as usize - 1);
            Ok(gather(self.bytes, self.size.cells(), k))
        } else {
            Err(at.outside())
        }
    }

    fn set(&mut self, at: Position, cell: Cell) -> Result<(), Refusal> {
        if self.size.has(at) {
            self.put(at.line as usize - 1, at.column as usize - 1, cell);
            Ok(())
        } else {
            Err(at.outside())
        }
    }

    fn erase(&mut self, from: Position, count: usize) -> Result<(), Refusal> {
        let k = self.size.find_run(from, count).ok_or(from.outside())?;
        // As the list panel does for a copy, the call takes the panel into its own hands for a while.
        let mut panel = take(self);
        panel.erase_from(k, count);
        *self = panel;
        Ok(())
    }

    fn copy(&mut self, from: Position, to: Position, count: u16) -> Result<(), Refusal> {
        // As the list panel's. Not one function for both: over any panel, it would be called by what it calls, which is refused.
        let mut panel = take(self);
        let answer = panel.copy_cells(from, to, count);
        *self = panel;
        answer
    }
}
