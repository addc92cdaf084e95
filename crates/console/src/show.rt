// The command `show`: a page on a panel is delivered the bytes of a file, and the panel is shown.
use crate::cable::Account;
use crate::call::Failure;
use crate::console::Console;
use crate::frame::Look;
use crate::kinds::{Kind, OnPanel};
use crate::{cable, frame, kinds};
use panel::{Lent, Panel, Size};
use std::fs;

#[derive(Drop)]
pub struct Show {
    pub kind: Kind,
    pub size: Size,
    pub path: String,
    pub look: Look,
}

// How many bytes of a file come in one piece.
const PIECE: usize = 7;

// What is delivered, and how the panel is shown then.
#[derive(Clone, Copy)]
struct Bytes<'a> {
    bytes: &'a [u8],
    look: Look,
}

impl OnPanel for Bytes<'_> {
    fn run<P: Panel>(&self, rt: &HostRuntime, panel: &mut P) -> Result<(), Failure> {
        let mut console = Console::on(Lent::new(panel));
        console.start()?;
        let mut account = Account::default();
        for piece in self.bytes.chunks(PIECE) {
            cable::send(&mut console, &mut account, piece)?;
        }
        frame::print_panel(rt, &console.panel, self.look)?;
        frame::print_below(rt, &console.page, account)
    }
}

pub(crate) fn run(rt: &HostRuntime, show: &Show) -> Result<(), Failure> {
    let bytes = match fs::read(rt, &show.path) {
        Ok(bytes) => bytes,
        Err(why) => return Err(Failure::Unread(show.path.clone()?, why)),
    };
    let shown = Bytes {
        bytes: &bytes,
        look: show.look,
    };
    kinds::on_kind(rt, show.kind, show.size, &shown)
}
