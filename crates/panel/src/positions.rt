// The positions of a size in reading order: line by line, each from its first column.
ghost use Rattle.std.specs.Prelude.{◌≡◌};
ghost use Rattle.std.specs.Iterator.{YieldsFirst, item_count};
ghost use Rattle.panel.specs.Reading.{positions_left, positions_of};

use crate::{Position, Size};

#[derive(Debug, Clone, Drop)]
pub struct Positions {
    size: Size,
    // The one that comes next; none does where it is not within the size.
    next: Position,
}

impl Size {
    // All its positions.
    pub fn positions(self) -> Positions
        ensures { positions_left result ≡ positions_of self }
    {
        Positions {
            size: self,
            next: Position { line: 1, column: 1 },
        }
    }
}

impl Iterator for Positions {
    type Item = Position;

    ghost next_gives = { YieldsFirst positions_left };

    ghost remaining = { item_count positions_left };

    fn next(&mut self) -> Option<Position> {
        let Positions { size, next: at } = *self;
        if !size.has(at) {
            return None;
        }
        self.next = if at.column < size.columns {
            at.right_by(1)
        } else {
            Position {
                line: at.line.wrapping_add(1),
                column: 1,
            }
        };
        Some(at)
    }
}
