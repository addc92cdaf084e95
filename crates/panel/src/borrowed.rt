// A panel that is lent for a while, as a panel: what a window by value, or a call that takes one, is given in its place.
ghost use Rattle.std.specs.Prelude.{◌≡◌};
ghost use Rattle.panel.specs.Lendings.{lent_shows, lent_sound};

use crate::{Cell, Panel, Position, Size};
use refusal::Refusal;

#[derive(Drop)]
pub struct Lent<'a, P> {
    below: &'a mut P,
}

impl<'a, P: Panel> Lent<'a, P> {
    pub fn new(below: &'a mut P) -> Lent<'a, P>
        ensures loan { result.below.ghost_name ≡ below.entry.ghost_name }
        ensures same { result.below.now ≡ below.old }
    {
        Lent { below }
    }
}

impl<P: Panel> Panel for Lent<'_, P> {
    ghost shows = { λ p. lent_shows P.Panel.shows p.below };

    ghost sound = { λ p. lent_sound P.Panel.shows P.Panel.sound p.below };

    fn size(&self) -> Size {
        self.below.size()
    }

    fn cell(&self, at: Position) -> Result<Cell, Refusal> {
        self.below.cell(at)
    }

    fn set(&mut self, at: Position, cell: Cell) -> Result<(), Refusal> {
        self.below.set(at, cell)
    }

    fn erase(&mut self, from: Position, count: usize) -> Result<(), Refusal> {
        self.below.erase(from, count)
    }

    fn copy(&mut self, from: Position, to: Position, count: u16) -> Result<(), Refusal> {
        self.below.copy(from, to, count)
    }
}
