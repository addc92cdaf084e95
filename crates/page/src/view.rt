// What a page answers.
ghost use Rattle.std.specs.Prelude.{◌≡◌};
ghost use Rattle.page.specs.Plain.{view_of_state};

use crate::state::State;
use control::function::Report;
use control::modes::Modes;
use control::rendition::Rendition;
pub use panel::Position;
use panel::Size;
use reader::standing::Standing;

// What a delivery did. A struct, so that it may come to tell more.
#[derive(Clone, Copy, Debug, PartialEq, Eq)]
pub struct Delivered {
    // how many bytes were taken
    pub taken: usize,
}

// What a page holds beside its cells. A stop is a flag for its column or line, counted from 0; flags past the page's edge mean nothing.
// The arrays are as long as the largest page, since nothing is allocated.
#[derive(Clone, Copy, Debug, PartialEq, Eq)]
pub struct View {
    pub size: Size,
    pub position: Position,
    pub rendition: Rendition,
    pub column_stops: [bool; 132],
    pub line_stops: [bool; 64],
    pub modes: Modes,
    pub standing: Standing,
    pub owed: Option<Report>,
}

impl View {
    pub(crate) fn of(state: &State) -> View
        ensures { result ≡ view_of_state state.now }
    {
        View {
            size: state.size,
            position: state.position,
            rendition: state.rendition,
            column_stops: state.column_stops.flags,
            line_stops: state.line_stops.flags,
            modes: state.modes,
            standing: state.reader.standing(),
            owed: state.owed,
        }
    }
}
