// The picture of a page and its panel.
ghost use Rattle.std.specs.Prelude.{◌≡◌, true, length};
ghost use Rattle.page.specs.Plain.{plain};
ghost use Rattle.picture.specs.Views.{seen, is_of_size};
ghost use Rattle.picture.specs.Calls.{Does, draws, pictures};

use crate::draw::Drawing;
use crate::foreign::find_foreign;
use crate::front::write_front;
use page::page::Page;
use page::view::View;
use panel::{Panel, Position};
use reader::standing::Standing;
use refusal::Refusal;

// The bytes, or the first cell that no bytes could have put there.
fn draw<P: Panel>(view: &View, panel: &P, buffer: &mut [u8]) -> Result<usize, Refusal>
    requires { is_of_size view.now (P.Panel.shows panel.now).grid ≡ true }
    ensures { Does (draws (length buffer.old) (seen view.now (P.Panel.shows panel.now).grid)) result (seen view.now (P.Panel.shows panel.now).grid) buffer.old buffer.new }
{
    if let Some(Position { line, column }) = find_foreign(panel) {
        return Err(Refusal::ForeignCell { line, column });
    }
    write_front(&Drawing { view, panel }, buffer)
}

fn show<P: Panel>(view: &View, panel: &P, buffer: &mut [u8]) -> Result<usize, Refusal>
    ensures { Does (pictures (length buffer.old) (seen view.now (P.Panel.shows panel.now).grid)) result (seen view.now (P.Panel.shows panel.now).grid) buffer.old buffer.new }
{
    if view.size != panel.size() {
        return Err(Refusal::OtherPanel);
    }
    if view.owed.is_some() {
        return Err(Refusal::ReplyOwed);
    }
    if !matches!(view.standing, Standing::Rest) {
        return Err(Refusal::Unfinished);
    }
    draw(view, panel, buffer)
}

// Writes the bytes that make any page of this size, outside an SOS string, equal to this one.
pub fn picture<P: Panel>(page: &Page, panel: &P, buffer: &mut [u8]) -> Result<usize, Refusal>
    ensures { Does (pictures (length buffer.old) (plain page.now (P.Panel.shows panel.now).grid)) result (plain page.now (P.Panel.shows panel.now).grid) buffer.old buffer.new }
{
    let view = page.view().ok_or(Refusal::OtherPanel)?;
    show(&view, panel, buffer)
}
