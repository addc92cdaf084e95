// SGR of a rendition: 0, and one parameter for each aspect in need, ascending.
ghost use Rattle.std.specs.Prelude.{◌≡◌};
ghost use Rattle.std.specs.Option.{option_to_list};
ghost use Rattle.picture.specs.Writing.{written};
ghost use Rattle.picture.specs.Tape.{tape, Lays};
ghost use Rattle.picture.specs.Draws.{Adds};
ghost use Rattle.picture.specs.Renditions.{sets_single, sets_double, needs_of};
ghost use Rattle.picture.specs.Pictures.{sgr};

use crate::out::{ESC, Out};
use control::rendition::{Ground, Rendition, Underline};

// Two functions, so that parameters ascend: a single underline stands at 4 and a double one at 21, with others between.
fn single_needs(underline: Underline) -> Option<u16>
    ensures { option_to_list result ≡ sets_single underline }
{
    matches!(underline, Underline::Single).then_some(4)
}

fn double_needs(underline: Underline) -> Option<u16>
    ensures { option_to_list result ≡ sets_double underline }
{
    matches!(underline, Underline::Double).then_some(21)
}

// A parameter after a separator, if it is needed.
fn put_need(out: &mut Out, need: Option<u16>)
    ensures { Adds (tape out.old) (option_to_list need) (tape out.new) }
{
    if let Some(n) = need {
        out.put(b';');
        out.put_number(n);
    }
}

fn put_needs(out: &mut Out, rendition: Rendition)
    ensures { Adds (tape out.old) (needs_of rendition) (tape out.new) }
{
    put_need(out, rendition.intensity.parameter());
    put_need(out, rendition.italic.then_some(3));
    put_need(out, single_needs(rendition.underline));
    put_need(out, rendition.blink.parameter());
    put_need(out, rendition.negative.then_some(7));
    put_need(out, rendition.concealed.then_some(8));
    put_need(out, rendition.crossed_out.then_some(9));
    put_need(out, double_needs(rendition.underline));
    put_need(out, rendition.foreground.parameter(Ground::Foreground));
    put_need(out, rendition.background.parameter(Ground::Background));
}

pub(crate) fn put_sgr(out: &mut Out, rendition: Rendition)
    ensures { Lays (tape out.old) (written (sgr rendition)) (tape out.new) }
{
    out.put(ESC);
    out.put(b'[');
    out.put(b'0');
    put_needs(out, rendition);
    out.put(b'm');
}
