// Whether two pages are equal, over any two kinds of panel.
ghost use Rattle.page.specs.Plain.{plain};
ghost use Rattle.turns.specs.Copying.{Compares};
ghost use Rattle.turns.specs.Laws.{PicturesTellPages};

use crate::copying::{is_admitted, of_one_size};
use page::page::Page;
use panel::Panel;
use picture::picture;
use refusal::Refusal;

// Compares two pages by their pictures, each of which its buffer holds afterwards.
pub fn same_pages<P: Panel, Q: Panel>(
    one: &Page,
    shown: &P,
    other: &Page,
    over: &Q,
    first: &mut [u8],
    second: &mut [u8],
) -> Result<bool, Refusal>
    ensures compares { Compares (plain one.now (P.Panel.shows shown.now).grid) (plain other.now (Q.Panel.shows over.now).grid) result first.old first.new second.old second.new }
    ensures tell { PicturesTellPages }
{
    is_admitted(one, shown);
    is_admitted(other, over);
    of_one_size(shown, over)?;
    let n = picture(one, shown, first)?;
    let m = picture(other, over, second)?;
    Ok(first[..n] == second[..m])
}
