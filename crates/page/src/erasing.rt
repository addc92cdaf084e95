// Erasures: ED, EL and ECH. Each is one run of cells.
ghost use Rattle.std.specs.Prelude.{◌≡◌};
ghost use Rattle.page.specs.Acts.{Acts};
ghost use Rattle.page.specs.Sheets.{state_of};
ghost use Rattle.page.specs.Cells.{here, to_edge, erase_in_page, erase_in_line, erase_characters};

use crate::sheet::Sheet;
use crate::state::State;
use control::function::Extent;
use panel::{Panel, Position};

impl State {
    // The active position in reading order, counted from 0.
    fn here(&self) -> usize
        ensures { result ≡ here (state_of self.now) }
    {
        let Position { line, column } = self.position;
        (line as usize - 1) * self.size.columns as usize + (column as usize - 1)
    }

    // The columns from the active one to the edge.
    pub(crate) fn to_edge(&self) -> u16
        ensures { result ≡ to_edge (state_of self.now) }
    {
        self.size.columns + 1 - self.position.column
    }
}

impl<P: Panel> Sheet<'_, P> {
    pub(crate) fn erase_in_page(&mut self, extent: Extent)
        ensures { Acts P.Panel.shows (erase_in_page extent) self.old self.new }
    {
        let state = &*self.state;
        let start = Position { line: 1, column: 1 };
        let _ = match extent {
            Extent::ToEnd => self
                .panel
                .erase(state.position, state.size.cells() - state.here()),
            Extent::FromStart => self.panel.erase(start, state.here() + 1),
            Extent::All => self.panel.erase(start, state.size.cells()),
        };
    }

    pub(crate) fn erase_in_line(&mut self, extent: Extent)
        ensures { Acts P.Panel.shows (erase_in_line extent) self.old self.new }
    {
        let state = &*self.state;
        let Position { line, column } = state.position;
        let start = Position { line, column: 1 };
        let _ = match extent {
            Extent::ToEnd => self.panel.erase(state.position, state.to_edge() as usize),
            Extent::FromStart => self.panel.erase(start, column as usize),
            Extent::All => self.panel.erase(start, state.size.columns as usize),
        };
    }

    // `n` cells from the active position, to the line's end at most.
    pub(crate) fn erase_characters(&mut self, n: u16)
        ensures { Acts P.Panel.shows (erase_characters n) self.old self.new }
    {
        let count = n.min(self.state.to_edge());
        let _ = self.panel.erase(self.state.position, count as usize);
    }
}
