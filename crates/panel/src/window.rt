// The window: a panel that shows a rectangle of the panel below.
ghost use Rattle.std.specs.Prelude.{◌≡◌};
ghost use Rattle.panel.specs.Rectangles.{framed};
ghost use Rattle.panel.specs.Windows.{windowed, windowed_sound, part_beneath};

use crate::lines::Lines;
use crate::{Cell, Panel, Position, Rectangle, Size};
use refusal::Refusal;

#[derive(Drop)]
pub struct Window<P> {
    below: P,
    frame: Rectangle,
}

impl<P: Panel> Window<P> {
    // A window on a rectangle of a panel, or on all of it if the rectangle does not lie inside. No cell is changed.
    pub fn new(below: P, frame: Rectangle) -> Window<P>
        ensures { result ≡ record { below = below; frame = frame } }
    {
        Window { below, frame }
    }

    // The panel below, given back.
    pub fn into_below(self) -> P
        ensures { result ≡ self.below }
    {
        let Window { below, .. } = self;
        below
    }

    // The rectangle that counts: that given if it is inside, else all of the panel below.
    fn shown(&self) -> Rectangle
        ensures { result ≡ framed (P.Panel.shows self.now.below).grid.lines (P.Panel.shows self.now.below).grid.columns self.now.frame }
    {
        let size = self.below.size();
        if self.frame.is_inside(size) {
            self.frame
        } else {
            Rectangle {
                top: 1,
                left: 1,
                lines: size.lines,
                columns: size.columns,
            }
        }
    }

    // Where a cell of the window stands below. Not `part_below` of one cell: that asks once more for the line's end, and a loop over a
    // window's cells, tried, took a fifth to a third more instructions. No `then`, as there.
    #[inline]
    fn cell_below(&self, at: Position) -> Option<Position>
        ensures { result ≡ part_beneath (framed (P.Panel.shows self.now.below).grid.lines (P.Panel.shows self.now.below).grid.columns self.now.frame) at 1 }
    {
        let f = self.shown();
        if f.size().has(at) {
            Some(Position {
                line: f.top + (at.line - 1),
                column: f.left + (at.column - 1),
            })
        } else {
            None
        }
    }

    // Where some cells of a line of the window begin below: there too they are cells of a line. Not by `then`, as in `Size::find`: for
    // its subtractions the closure would need a contract of its own.
    fn part_below(&self, from: Position, count: u16) -> Option<Position>
        ensures { result ≡ part_beneath (framed (P.Panel.shows self.now.below).grid.lines (P.Panel.shows self.now.below).grid.columns self.now.frame) from count }
    {
        let f = self.shown();
        if f.size().has_part(from, count) {
            Some(Position {
                line: f.top + (from.line - 1),
                column: f.left + (from.column - 1),
            })
        } else {
            None
        }
    }
}

impl<P: Panel> Lines for Window<P> {
    ghost seen = { λ w. windowed (P.Panel.shows w.below) w.frame };

    ghost seen_sound = { λ w. windowed_sound (P.Panel.shows w.below) w.frame (P.Panel.sound w.below) };

    fn columns(&self) -> usize {
        self.shown().columns as usize
    }

    fn erase_in_line(&mut self, at: usize, count: usize) {
        let f = self.shown();
        let columns = f.columns as usize;
        let from = Position {
            line: f.top + (at / columns) as u16,
            column: f.left + (at % columns) as u16,
        };
        let _ = self.below.erase(from, count);
    }
}

impl<P: Panel> Panel for Window<P> {
    ghost shows = { λ w. windowed (P.Panel.shows w.below) w.frame };

    ghost sound = { λ w. windowed_sound (P.Panel.shows w.below) w.frame (P.Panel.sound w.below) };

    fn size(&self) -> Size {
        self.shown().size()
    }

    #[inline]
    fn cell(&self, at: Position) -> Result<Cell, Refusal> {
        let place = self.cell_below(at).ok_or(at.outside())?;
        self.below.cell(place)
    }

    #[inline]
    fn set(&mut self, at: Position, cell: Cell) -> Result<(), Refusal> {
        let place = self.cell_below(at).ok_or(at.outside())?;
        self.below.set(place, cell)
    }

    fn erase(&mut self, from: Position, count: usize) -> Result<(), Refusal> {
        let k = self.size().find_run(from, count).ok_or(from.outside())?;
        self.erase_from(k, count);
        Ok(())
    }

    fn copy(&mut self, from: Position, to: Position, count: u16) -> Result<(), Refusal> {
        let source = self.part_below(from, count).ok_or(from.outside())?;
        let target = self.part_below(to, count).ok_or(to.outside())?;
        self.below.copy(source, target, count)
    }
}
