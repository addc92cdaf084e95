// CUP, and stops set again.
ghost use Rattle.std.specs.Prelude.{[], ◌∷◌, take};
ghost use Rattle.picture.specs.Tape.{tape};
ghost use Rattle.picture.specs.Draws.{Draws};
ghost use Rattle.picture.specs.Pictures.{cup, stops_from};
ghost use Rattle.picture.specs.Pens.{stop_at};

use crate::out::{ESC, Out};
use panel::Position;

#[derive(Clone, Copy, Debug)]
pub enum Along {
    Columns,
    Lines,
}

pub(crate) fn put_cup(out: &mut Out, at: Position)
    ensures { Draws (tape out.old) (cup at.line at.column ∷ []) (tape out.new) }
{
    out.put_sequence(&[Some(at.line), Some(at.column)], false, b'H');
}

// Goes there, and sets a stop.
fn put_stop(out: &mut Out, along: Along, k: u16)
    ensures { Draws (tape out.old) (stop_at along k) (tape out.new) }
{
    // Two arms that are alike: with place and final byte chosen first, tried, the check knew the final byte no more by its place.
    match along {
        Along::Columns => {
            put_cup(out, Position { line: 1, column: k });
            out.put(ESC);
            out.put(b'H');
        }
        Along::Lines => {
            put_cup(out, Position { line: k, column: 1 });
            out.put(ESC);
            out.put(b'J');
        }
    }
}

// The first `count` flags as stops; there is none past the last flag. Counted, since a view may have any size: the flags can't be cut
// to it before.
pub(crate) fn put_stops(out: &mut Out, along: Along, flags: &[bool], count: u16)
    ensures { Draws (tape out.old) (stops_from (stop_at along) 1 (take count flags.now)) (tape out.new) }
{
    for (i, flag) in (0..count).zip(flags) {
        if *flag {
            put_stop(out, along, i + 1);
        }
    }
}
