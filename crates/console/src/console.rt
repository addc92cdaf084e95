// A console: a page, and the panel that shows it.
use page::page::Page;
use panel::Panel;
use refusal::Refusal;

#[derive(Drop)]
pub struct Console<P> {
    pub page: Page,
    pub panel: P,
}

impl<P: Panel> Console<P> {
    // On a panel, not started.
    pub(crate) fn on(panel: P) -> Console<P> {
        Console {
            page: Page::new(),
            panel,
        }
    }

    pub(crate) fn start(&mut self) -> Result<(), Refusal> {
        self.page.start(&mut self.panel)
    }

    // Delivers bytes, and answers how many were taken.
    pub(crate) fn deliver(&mut self, bytes: &[u8]) -> Result<usize, Refusal> {
        Ok(self.page.deliver(&mut self.panel, bytes)?.taken)
    }

    pub(crate) fn is_owing(&self) -> bool {
        self.page.view().is_some_and(|view| view.owed.is_some())
    }
}
