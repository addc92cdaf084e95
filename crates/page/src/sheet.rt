// A page's state on the panel that shows its cells.
ghost use Rattle.std.specs.Prelude.{◌≡◌};

use crate::state::State;
use panel::Panel;

// The panel is of the page's size, whatever bytes do to the two: that is part of the type. The state is the page's own, lent for a
// delivery: taken out and put back, tried, it made a delivery of one byte take twice as long. No `impl Model`, tried: the check finds no code
// for what lies beyond a panel's cells, a data type that holds itself.
#[derive(Drop)]
pub struct Sheet<'a, P: Panel> {
    pub(crate) state: &'a mut State,
    pub(crate) panel: P,
    ghost lines: { state.now.size.lines ≡ (P.Panel.shows panel).grid.lines },
    ghost columns: { state.now.size.columns ≡ (P.Panel.shows panel).grid.columns },
}
