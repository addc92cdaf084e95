// The calls of a page: start, deliver, what it shows, and settle.
ghost use Rattle.std.specs.Prelude.{◌≡◌, false, is_some, None};
ghost use Rattle.panel.specs.Grids.{Grid};
ghost use Rattle.reader.specs.Requests.{until_request};
ghost use Rattle.refusal.specs.Table.{answer};
ghost use Rattle.page.specs.Acts.{Acts};
ghost use Rattle.page.specs.Sheets.{state_of};
ghost use Rattle.page.specs.Effects.{run};
ghost use Rattle.page.specs.Plain.{plain, unstarted, taken_at, deliver_answer, delivered, start_answer, after_start, leaves, on_panel, view_of, settled};
ghost use Rattle.page.specs.Proper.{Proper};
ghost use Rattle.page.specs.Laws.{DeliversInParts, ShowsItems};

use crate::page::Page;
use crate::sheet::Sheet;
use crate::state::State;
use crate::view::{Delivered, View};
use panel::{Lent, Panel, clear};
use refusal::Refusal;

impl<P: Panel> Sheet<'_, P> {
    // Lets bytes act, through the first that makes a reply owed, and counts them. Their number has no bound.
    fn feed(&mut self, bytes: &[u8]) -> usize
        requires { is_some self.old.state.now.owed ≡ false }
        ensures count { result ≡ until_request (state_of self.old.state.now).standing bytes.now }
        ensures after { Acts P.Panel.shows (λ x. run x (taken_at x.state.standing bytes.now)) self.old self.new }
    {
        // A loop, since no proof follows a chain whose closure changes the sheet.
        for (i, byte) in bytes.iter().enumerate() {
            self.step(*byte);
            if self.state.is_owing() {
                return i + 1;
            }
        }
        bytes.len()
    }
}

impl Page {
    // A page that is not started.
    pub fn new() -> Page
        ensures not_started { result.state ≡ None }
        ensures shows { (g : Grid) → plain result g ≡ unstarted g }
    {
        Page { state: None }
    }

    // Begins a page on a panel of 1 to 64 lines and 1 to 132 columns, whether it was started or not.
    pub fn start<P: Panel>(&mut self, panel: &mut P) -> Result<(), Refusal>
        ensures says { answer result ≡ start_answer (P.Panel.shows panel.old).grid }
        ensures after { on_panel self.new (P.Panel.shows panel.new) ≡ leaves after_start (on_panel self.old (P.Panel.shows panel.old)) }
    {
        let size = panel.size();
        // The page's own bounds; that panels on memory have the same is a rule of theirs.
        if !matches!((size.lines, size.columns), (1..=64, 1..=132)) {
            return Err(Refusal::PanelSize);
        }
        clear(panel);
        self.state = Some(State::new(size));
        Ok(())
    }

    // Lets bytes act one by one, through the first that makes a reply owed, else all.
    #[tactic(auto, using(crate::proofs::Parts::delivers_in_parts, crate::proofs::BytesAct::shows_items))]
    pub fn deliver<P: Panel>(&mut self, panel: &mut P, bytes: &[u8]) -> Result<Delivered, Refusal>
        ensures says { answer result ≡ deliver_answer (plain self.old (P.Panel.shows panel.old).grid) bytes.now }
        ensures after { on_panel self.new (P.Panel.shows panel.new) ≡ leaves (delivered bytes.now) (on_panel self.old (P.Panel.shows panel.old)) }
        ensures parts { DeliversInParts }
        ensures items { ShowsItems }
    {
        let Some(state) = &mut self.state else {
            return Err(Refusal::OtherPanel);
        };
        if state.size != panel.size() {
            return Err(Refusal::OtherPanel);
        }
        if bytes.len() > 4096 {
            return Err(Refusal::TooLong);
        }
        if state.owed.is_some() {
            return Err(Refusal::ReplyOwed);
        }
        let mut sheet = Sheet {
            state,
            panel: Lent::new(panel),
        };
        let taken = sheet.feed(bytes);
        Ok(Delivered { taken })
    }

    // What the page holds beside its cells; nothing where it is not started.
    pub fn view(&self) -> Option<View>
        ensures answer { result ≡ view_of self.now }
        ensures proper { (g : Grid) → Proper (plain self.now g).sheet.state }
    {
        self.state.as_ref().map(View::of)
    }

    // Nothing is owed any more: a reply was sent.
    pub fn settle(&mut self)
        ensures { (g : Grid) → plain self.new g ≡ settled (plain self.old g) }
    {
        if let Some(state) = &mut self.state {
            state.owed = None;
        }
    }
}
