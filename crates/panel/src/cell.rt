// A cell, and where it stands.
ghost use Rattle.std.specs.Prelude.{◌≡◌, ◌+◌, ◌^◌, ◌<◌};
ghost use Rattle.refusal.specs.declared.Refusal.TheVariants.{OutsidePanel};

use refusal::Refusal;

// A line and column, counted from 1.
#[derive(Debug, Clone, Copy, PartialEq, Eq)]
pub struct Position {
    pub line: u16,
    pub column: u16,
}

impl Position {
    // The refusal of a call that names a cell off the panel, and asked for this place.
    pub fn outside(self) -> Refusal
        ensures { result ≡ OutsidePanel self.line self.column }
    {
        Refusal::OutsidePanel {
            line: self.line,
            column: self.column,
        }
    }

    // The place so many columns to the right.
    pub(crate) fn right_by(self, columns: u16) -> Position
        requires { self.column + columns < 2 ^ 16 }
        ensures { result ≡ record { line = self.line; column = self.column + columns } }
    {
        Position {
            line: self.line,
            column: self.column + columns,
        }
    }
}

// A code and a rendition.
#[derive(Debug, Clone, Copy, PartialEq, Eq)]
pub struct Cell {
    pub code: u8,
    pub rendition: u16,
}

pub const ERASED: Cell = Cell {
    code: 0,
    rendition: 0,
};
