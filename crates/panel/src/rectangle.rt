// A rectangle of a panel: where it begins, and how many lines and columns it has.
ghost use Rattle.std.specs.Prelude.{◌≡◌};
ghost use Rattle.panel.specs.Rectangles.{part_of, inside};

use crate::{Position, Size};

// Four numbers, and no Position and Size: callers and definitions name each by itself.
#[derive(Debug, Clone, Copy, PartialEq, Eq)]
pub struct Rectangle {
    pub top: u16,
    pub left: u16,
    pub lines: u16,
    pub columns: u16,
}

// Whether some lines, or columns, from a first one on are at least one, and end inside. By `&`, here and below: a window asks this at each
// call, and with `&&` the compiler leaves the question in a loop over its cells, which then takes about twice the instructions.
fn part_of(all: u16, first: u16, count: u16) -> bool
    ensures { result ≡ part_of all first count }
{
    (1 <= first) & (1 <= count) & (first as u32 + count as u32 <= all as u32 + 1)
}

impl Rectangle {
    // Whether its four numbers are at least 1 and it ends inside a panel of this size.
    pub fn is_inside(self, size: Size) -> bool
        ensures { result ≡ inside size.lines size.columns self }
    {
        part_of(size.lines, self.top, self.lines) & part_of(size.columns, self.left, self.columns)
    }

    // The size of a panel that shows just it.
    pub(crate) fn size(self) -> Size
        ensures { result ≡ record { lines = self.lines; columns = self.columns } }
    {
        Size {
            lines: self.lines,
            columns: self.columns,
        }
    }

    // Where it begins.
    pub(crate) fn corner(self) -> Position
        ensures { result ≡ record { line = self.top; column = self.left } }
    {
        Position {
            line: self.top,
            column: self.left,
        }
    }
}
