// The cells of a panel at its own positions.
ghost use Rattle.std.specs.Prelude.{◌≡◌, true};
ghost use Rattle.panel.specs.Grids.{on, cell_at};

use panel::{Cell, ERASED, Panel, Position};

pub(crate) fn cell_on<P: Panel>(panel: &P, at: Position) -> Cell
    requires { on (P.Panel.shows panel.now).grid at.line at.column ≡ true }
    ensures { result ≡ cell_at (P.Panel.shows panel.now).grid at.line at.column }
{
    panel.cell(at).unwrap_or(ERASED)
}
