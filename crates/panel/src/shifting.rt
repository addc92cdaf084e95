// The shift: the cells of a rectangle move within it, and erased cells come in.
//
// Line by line, the cells that stay in the rectangle are copied, and the part that comes in is erased.
// Up and left go from the first line on, down and right from the last one, so that no cell is written before it is read.
ghost use Rattle.std.specs.Prelude.{◌≡◌, ◌+◌, ◌<◌, ◌≤◌, ◌^◌};
ghost use Rattle.refusal.specs.Table.{answer};
ghost use Rattle.panel.specs.Grids.{index, done_if};
ghost use Rattle.panel.specs.Screens.{with_grid, wipe_on};
ghost use Rattle.panel.specs.Copies.{copied};
ghost use Rattle.panel.specs.Rectangles.{inside};
ghost use Rattle.panel.specs.Shifts.{Block, Line, Part, turn, line_shifted, shifted, shift_on};

use crate::{Panel, Position, Rectangle};
use refusal::Refusal;

#[derive(Debug, Clone, Copy, PartialEq, Eq)]
pub enum Direction {
    Up,
    Down,
    Left,
    Right,
}

// Copies `count` cells of a line.
fn copy_part<P: Panel>(panel: &mut P, from: Position, to: Position, count: u16)
    requires { (Part (P.Panel.shows panel.old).grid from.line from.column count) × ((Part (P.Panel.shows panel.old).grid to.line to.column count) × (1 ≤ count)) }
    ensures { P.Panel.shows panel.new ≡ with_grid (P.Panel.shows panel.old) (copied (index (P.Panel.shows panel.old).grid from.line from.column) (index (P.Panel.shows panel.old).grid to.line to.column) count (P.Panel.shows panel.old).grid) }
{
    let _ = panel.copy(from, to, count);
}

// Erases `count` cells of a line.
fn erase_part<P: Panel>(panel: &mut P, from: Position, count: u16)
    requires { (Part (P.Panel.shows panel.old).grid from.line from.column count) × (1 ≤ count) }
    ensures { P.Panel.shows panel.new ≡ wipe_on (P.Panel.shows panel.old) (index (P.Panel.shows panel.old).grid from.line from.column) count }
{
    let _ = panel.erase(from, count as usize);
}

// A rectangle, and where and how far its cells move within it.
#[derive(Clone, Copy)]
struct Motion {
    part: Rectangle,
    direction: Direction,
    count: u16,
}

impl Motion {
    // Shifts one line: cells come to it from another line or from beside, and where none come it is erased.
    fn line<P: Panel>(self, panel: &mut P, line: u16)
        requires { Line (P.Panel.shows panel.old).grid self.part self.count line }
        ensures { P.Panel.shows panel.new ≡ with_grid (P.Panel.shows panel.old) (line_shifted self.part self.direction self.count line (P.Panel.shows panel.old).grid) }
    {
        let r = self.part;
        let count = self.count;
        let first = Position {
            line,
            column: r.left,
        };
        match self.direction {
            Direction::Up if count <= r.top + (r.lines - 1) - line => {
                let from = Position {
                    line: line + count,
                    column: r.left,
                };
                copy_part(panel, from, first, r.columns);
            }
            Direction::Down if count <= line - r.top => {
                let from = Position {
                    line: line - count,
                    column: r.left,
                };
                copy_part(panel, from, first, r.columns);
            }
            Direction::Left if count < r.columns => {
                let kept = r.columns - count;
                copy_part(panel, first.right_by(count), first, kept);
                erase_part(panel, first.right_by(kept), count);
            }
            Direction::Right if count < r.columns => {
                copy_part(panel, first, first.right_by(count), r.columns - count);
                erase_part(panel, first, count);
            }
            _ => erase_part(panel, first, r.columns),
        }
    }

    // The line that is shifted after `i` others: no line is written before it is read.
    fn turn(self, i: u16) -> u16
        requires { (i < self.part.lines) × (self.part.top + self.part.lines ≤ 2 ^ 16) }
        ensures { result ≡ turn self.part self.direction i }
    {
        match self.direction {
            Direction::Up | Direction::Left => self.part.top + i,
            Direction::Down | Direction::Right => self.part.top + (self.part.lines - 1 - i),
        }
    }

    // Shifts all lines.
    fn lines<P: Panel>(self, panel: &mut P)
        requires { Block (P.Panel.shows panel.old).grid self.part self.count }
        ensures { P.Panel.shows panel.new ≡ with_grid (P.Panel.shows panel.old) (shifted self.part self.direction self.count (P.Panel.shows panel.old).grid) }
    {
        for i in 0..self.part.lines {
            self.line(panel, self.turn(i));
        }
    }
}

// Moves the cells of a rectangle by `count` lines or columns within it, and lets erased cells in; all else stays.
// A rectangle that does not lie inside the panel is refused, at its first line and column.
pub fn shift<P: Panel>(
    panel: &mut P,
    r: Rectangle,
    direction: Direction,
    count: u16,
) -> Result<(), Refusal>
    ensures says { answer result ≡ done_if (inside (P.Panel.shows panel.old).grid.lines (P.Panel.shows panel.old).grid.columns r) r.top r.left }
    ensures after { P.Panel.shows panel.new ≡ shift_on (P.Panel.shows panel.old) r direction count }
{
    if !r.is_inside(panel.size()) {
        return Err(r.corner().outside());
    }
    if count > 0 {
        let motion = Motion {
            part: r,
            direction,
            count,
        };
        motion.lines(panel);
    }
    Ok(())
}
