// A page made equal to another, over any two kinds of panel.
ghost use Rattle.std.specs.Prelude.{◌≡◌, true, false};
ghost use Rattle.refusal.specs.Table.{answer};
ghost use Rattle.reader.specs.Requests.{any_requests};
ghost use Rattle.reader.specs.Steps.{performed};
ghost use Rattle.page.specs.Plain.{plain, on_panel, known, owes, after_bytes, leaves};
ghost use Rattle.picture.specs.Views.{seen};
ghost use Rattle.turns.specs.Copying.{size_answer, takes_picture, Copies};
ghost use Rattle.turns.specs.Laws.{Admitted, PictureRestores};

use page::page::Page;
use page::view::View;
use panel::Panel;
use picture::picture;
use reader::standing::Standing;
use refusal::Refusal;

pub(crate) fn of_one_size<P: Panel, Q: Panel>(one: &P, other: &Q) -> Result<(), Refusal>
    ensures { answer result ≡ size_answer (P.Panel.shows one.now).grid (Q.Panel.shows other.now).grid }
{
    if one.size() == other.size() {
        Ok(())
    } else {
        Err(Refusal::OtherPanel)
    }
}

fn view_takes_picture<P: Panel>(view: &View, panel: &P) -> Result<(), Refusal>
    ensures { answer result ≡ takes_picture (seen view.now (P.Panel.shows panel.now).grid) }
{
    if view.size != panel.size() {
        return Err(Refusal::OtherPanel);
    }
    if view.owed.is_some() {
        return Err(Refusal::ReplyOwed);
    }
    if matches!(view.standing, Standing::Sos { .. }) {
        return Err(Refusal::Unfinished);
    }
    Ok(())
}

// Whether a picture's bytes, delivered, would act on the page from its first byte to its last.
fn takes_picture<P: Panel>(page: &Page, panel: &P) -> Result<(), Refusal>
    ensures { answer result ≡ takes_picture (plain page.now (P.Panel.shows panel.now).grid) }
{
    let view = page.view().ok_or(Refusal::OtherPanel)?;
    view_takes_picture(&view, panel)
}

// What every page and panel have: a view of the page tells it.
pub(crate) fn is_admitted<P: Panel>(page: &Page, panel: &P)
    ensures { Admitted (plain page.now (P.Panel.shows panel.now).grid) }
{
    let _ = page.view();
}

// Bytes that request no reply, in deliveries of as many as a page takes at once.
fn deliver_all<P: Panel>(page: &mut Page, panel: &mut P, bytes: &[u8])
    requires knows { known (plain page.old (P.Panel.shows panel.old).grid) ≡ true }
    requires free { owes (plain page.old (P.Panel.shows panel.old).grid) ≡ false }
    requires quiet { any_requests (performed (plain page.old (P.Panel.shows panel.old).grid).sheet.state.standing bytes.now) ≡ false }
    ensures { on_panel page.new (P.Panel.shows panel.new) ≡ leaves (λ x. after_bytes x bytes.now) (on_panel page.old (P.Panel.shows panel.old)) }
{
    for piece in bytes.chunks(4096) {
        let _ = page.deliver(panel, piece);
    }
}

// Makes `to` equal to `from` by its picture, which the buffer holds afterwards.
pub fn copy_page<P: Panel, Q: Panel>(
    from: &Page,
    shown: &P,
    to: &mut Page,
    onto: &mut Q,
    buffer: &mut [u8],
) -> Result<usize, Refusal>
    ensures copies { Copies (plain from.now (P.Panel.shows shown.now).grid) (on_panel to.old (Q.Panel.shows onto.old)) result (on_panel to.new (Q.Panel.shows onto.new)) buffer.old buffer.new }
    ensures restores { PictureRestores }
{
    is_admitted(from, shown);
    is_admitted(to, onto);
    of_one_size(shown, onto)?;
    takes_picture(to, onto)?;
    let n = picture(from, shown, buffer)?;
    deliver_all(to, onto, &buffer[..n]);
    Ok(n)
}
