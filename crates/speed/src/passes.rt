// Passes over a file.
use crate::words::{Call, Failure, Kind, Pass};
use page::page::Page;
use panel::{ERASED, Lent, ListPanel, ModulePanel, Panel, Rectangle, Size, Window};
use picture::picture;

const SIZE: Size = Size {
    lines: 24,
    columns: 80,
};

// The panel under a window.
const BELOW: Size = Size {
    lines: 26,
    columns: 85,
};

// The most that a page takes at once.
const DELIVERY: usize = 4096;

// More than a picture of this size can need.
const ROOM: usize = 65536;

pub(crate) fn run(rt: &HostRuntime, call: &Call) -> Result<(), Failure> {
    match call.kind {
        Kind::List => {
            let mut cells = vec![in rt.alloc(); ERASED; 1920]?;
            let mut panel = ListPanel::new(&mut cells, SIZE);
            on_panel(rt, &mut panel, call)
        }
        Kind::Module => {
            let mut bytes = vec![in rt.alloc(); 0; 5760]?;
            let mut panel = ModulePanel::new(&mut bytes, SIZE);
            on_panel(rt, &mut panel, call)
        }
        Kind::Window => {
            let mut cells = vec![in rt.alloc(); ERASED; 2210]?;
            let mut below = ListPanel::new(&mut cells, BELOW);
            on_window(rt, &mut below, call)
        }
    }
}

fn on_window<P: Panel>(rt: &HostRuntime, below: &mut P, call: &Call) -> Result<(), Failure> {
    let frame = Rectangle {
        top: 2,
        left: 3,
        lines: SIZE.lines,
        columns: SIZE.columns,
    };
    let mut panel = Window::new(Lent::new(below), frame);
    on_panel(rt, &mut panel, call)
}

fn on_panel<P: Panel>(rt: &HostRuntime, panel: &mut P, call: &Call) -> Result<(), Failure> {
    let mut page = Page::new();
    page.start(panel)?;
    match call.pass {
        Pass::Deliver => {
            for _ in 0..call.times {
                deliver_all(&mut page, panel, &call.bytes)?;
            }
        }
        Pass::Picture => {
            deliver_all(&mut page, panel, &call.bytes)?;
            let mut buffer = vec![in rt.alloc(); 0; ROOM]?;
            for _ in 0..call.times {
                let _ = picture(&page, panel, &mut buffer)?;
            }
        }
    }
    let hash = hash_of(panel);
    println!(rt; "{hash:08x}")?;
    Ok(())
}

fn deliver_all<P: Panel>(page: &mut Page, panel: &mut P, bytes: &[u8]) -> Result<(), Failure> {
    for piece in bytes.chunks(DELIVERY) {
        let _ = page.deliver(panel, piece)?;
    }
    Ok(())
}

// The hash that the peers print: an erased cell counts as SPACE.
fn hash_of<P: Panel>(panel: &P) -> u32 {
    let mut hash = 0u32;
    for at in SIZE.positions() {
        let cell = panel.cell(at).unwrap_or(ERASED);
        let code = u32::from(cell.code.max(32));
        hash = hash.wrapping_mul(31).wrapping_add(code);
    }
    hash
}
