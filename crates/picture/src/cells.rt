// Cells that are not erased, in reading order.
ghost use Rattle.std.specs.Prelude.{◌≡◌, ◌<◌, ◌==◌, not, true};
ghost use Rattle.control.specs.Renditions.{rendition_of};
ghost use Rattle.picture.specs.Tape.{tape};
ghost use Rattle.picture.specs.Draws.{Draws};
ghost use Rattle.picture.specs.Pictures.{cells_from, when, sgr, is_erased};
ghost use Rattle.picture.specs.Pens.{starts, cell_functions, pen_after};

use crate::draw::Drawing;
use crate::out::Out;
use crate::places::cell_on;
use crate::renditions::put_sgr;
use crate::stops::put_cup;
use control::rendition::Rendition;
use panel::{Cell, ERASED, Panel, Position};

// What the next cell depends on: whether the one before it is erased, and the rendition last written.
#[derive(Clone, Copy, Debug)]
pub struct Pen {
    pub gap: bool,
    pub rendition: u16,
}

fn is_erased(cell: Cell) -> bool
    ensures { result ≡ is_erased cell }
{
    cell == ERASED
}

// SGR where the number is another than the one last written; a foreign number has no rendition.
fn put_rendition(out: &mut Out, pen: Pen, number: u16)
    requires { number < 34992 }
    ensures { Draws (tape out.old) (when (not (number == pen.rendition)) (sgr (rendition_of number))) (tape out.new) }
{
    if number != pen.rendition
        && let Some(rendition) = Rendition::from_number(number)
    {
        put_sgr(out, rendition);
    }
}

// CUP comes before a cell in column 1, and after an erased one.
fn is_start(pen: Pen, column: u16) -> bool
    ensures { result ≡ starts pen column }
{
    pen.gap || column == 1
}

// Puts a cell unless it is erased, and answers what the next depends on.
fn put_cell(out: &mut Out, pen: Pen, cell: Cell, at: Position) -> Pen
    requires { cell.rendition < 34992 }
    ensures lays { Draws (tape out.old) (cell_functions pen cell at.line at.column) (tape out.new) }
    ensures pen { result ≡ pen_after pen cell }
{
    if is_erased(cell) {
        return Pen { gap: true, ..pen };
    }
    if is_start(pen, at.column) {
        put_cup(out, at);
    }
    put_rendition(out, pen, cell.rendition);
    out.put(cell.code);
    Pen {
        gap: false,
        rendition: cell.rendition,
    }
}

impl<P: Panel> Drawing<'_, '_, P> {
    // Each cell that is not erased.
    pub(crate) fn put_cells(&self, out: &mut Out)
        ensures { Draws (tape out.old) (cells_from self.now.view.now.size.columns 0 true 0 (P.Panel.shows self.now.panel.now).grid.cells) (tape out.new) }
    {
        let mut pen = Pen {
            gap: true,
            rendition: 0,
        };
        for at in self.panel.size().positions() {
            pen = put_cell(out, pen, cell_on(self.panel, at), at);
        }
    }
}
