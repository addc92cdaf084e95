// A picture's functions, one after the other.
ghost use Rattle.std.specs.Prelude.{◌≡◌, [], ◌∷◌, None};
ghost use Rattle.picture.specs.Tape.{tape};
ghost use Rattle.picture.specs.Draws.{Draws};
ghost use Rattle.picture.specs.Pictures.{numbered, stops_drawn, ending, picture_bytes, first_foreign};
ghost use Rattle.picture.specs.Views.{state_seen, sheet_seen};

use crate::front::Written;
use crate::out::{ESC, Out};
use crate::renditions::put_sgr;
use crate::stops::{Along, put_cup, put_stops};
use page::view::View;
use panel::Panel;

fn put_one(out: &mut Out, n: u16, final_byte: u8)
    ensures { Draws (tape out.old) (numbered (n ∷ []) final_byte ∷ []) (tape out.new) }
{
    out.put_sequence(&[Some(n)], false, final_byte);
}

// A page and its panel, without a foreign cell and of the page's width.
#[derive(Drop)]
pub struct Drawing<'a, 'b, P: Panel> {
    pub view: &'a View,
    pub panel: &'b P,
    ghost clean: { first_foreign 0 (P.Panel.shows panel.now).grid.cells ≡ None },
    ghost wide: { view.now.size.columns ≡ (P.Panel.shows panel.now).grid.columns },
}

impl<P: Panel> Drawing<'_, '_, P> {
    // Every stop is cleared first: RIS leaves some.
    fn put_all_stops(&self, out: &mut Out)
        ensures { Draws (tape out.old) (stops_drawn (state_seen self.now.view.now)) (tape out.new) }
    {
        put_one(out, 3, b'g');
        put_one(out, 4, b'g');
        put_stops(
            out,
            Along::Columns,
            &self.view.column_stops,
            self.view.size.columns,
        );
        put_stops(
            out,
            Along::Lines,
            &self.view.line_stops,
            self.view.size.lines,
        );
    }

    // Modes, rendition and position. Modes come late, so that they bend nothing above.
    fn put_ending(&self, out: &mut Out)
        ensures { Draws (tape out.old) (ending (state_seen self.now.view.now)) (tape out.new) }
    {
        if self.view.modes.insertion {
            put_one(out, 4, b'h');
        }
        if self.view.modes.combination {
            put_one(out, 21, b'h');
        }
        put_sgr(out, self.view.rendition);
        put_cup(out, self.view.position);
    }
}

// All behind RIS.
impl<P: Panel> Written for Drawing<'_, '_, P> {
    ghost bytes = { λ d. picture_bytes (sheet_seen d.view.now (P.Panel.shows d.panel.now).grid) };

    fn put(&self, out: &mut Out) {
        out.put(ESC);
        out.put(b'c');
        self.put_cells(out);
        self.put_all_stops(out);
        self.put_ending(out);
    }
}
