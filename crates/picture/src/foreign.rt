// The first cell that no bytes could have put there.
ghost use Rattle.std.specs.Prelude.{◌≡◌};
ghost use Rattle.std.specs.Option.{option_map};
ghost use Rattle.picture.specs.Pens.{position_of};
ghost use Rattle.picture.specs.Pictures.{foreign, first_foreign};

use crate::places::cell_on;
use panel::{Cell, Panel, Position};

fn is_foreign(cell: Cell) -> bool
    ensures { result ≡ foreign cell }
{
    matches!(cell.code, 1..=31 | 127..=159)
        || cell.rendition >= 34992
        || cell.code == 0 && cell.rendition != 0
}

// Where it is.
pub(crate) fn find_foreign<P: Panel>(panel: &P) -> Option<Position>
    ensures { result ≡ option_map (position_of (P.Panel.shows panel.now).grid) (first_foreign 0 (P.Panel.shows panel.now).grid.cells) }
{
    // A loop: a closure that `find` takes would owe a proof that each position is on the panel.
    for at in panel.size().positions() {
        if is_foreign(cell_on(panel, at)) {
            return Some(at);
        }
    }
    None
}
