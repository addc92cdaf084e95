// Every cell erased: of any panel, and of memory that is lent to one for that.
ghost use Rattle.std.specs.Prelude.{◌≡◌};
ghost use Rattle.panel.specs.Clears.{clear_on, cells_cleared, bytes_cleared};

use crate::{Cell, ListPanel, ModulePanel, Panel, Position, Size};

// Erases every cell.
pub fn clear<P: Panel>(panel: &mut P)
    ensures { P.Panel.shows panel.new ≡ clear_on (P.Panel.shows panel.old) }
{
    let size = panel.size();
    let first = Position { line: 1, column: 1 };
    let _ = panel.erase(first, size.cells());
}

// Erases the cells of a list panel of this size on the memory given. Nothing past them is changed, and nothing at all if the
// size or the memory does not do.
pub fn clear_cells(cells: &mut [Cell], size: Size)
    ensures { cells.new ≡ cells_cleared size.lines size.columns cells.old }
{
    let mut panel = ListPanel::new(cells, size);
    clear(&mut panel);
}

// The same of a module panel. Not one function: each makes another panel, and says of another memory what it holds.
pub fn clear_bytes(bytes: &mut [u8], size: Size)
    ensures { bytes.new ≡ bytes_cleared size.lines size.columns bytes.old }
{
    let mut panel = ModulePanel::new(bytes, size);
    clear(&mut panel);
}
