// A page on a panel of each kind.
use crate::text::page_text;
use page::page::Page;
use panel::{ERASED, Lent, ListPanel, ModulePanel, Panel, Rectangle, Size, Window};
use std::alloc::{AllocError, Global};
use std::process::Abort;
use std::test::Fail;

// Not shared with other programs: each has other kinds, and no library knows a program's words.
#[derive(Clone, Copy, Debug, PartialEq, Eq)]
pub enum Kind {
    List,
    Module,
    WindowOnList,
    WindowOnModule,
}

pub const KINDS: [Kind; 4] = [
    Kind::List,
    Kind::Module,
    Kind::WindowOnList,
    Kind::WindowOnModule,
];

// Deliveries to a page that is started on a panel: the page's text, after how many bytes of the last were taken where that
// is not all of them. A refusal ends it, and is the answer.
pub(crate) fn delivered_on<P: Panel>(
    heap: Global,
    panel: &mut P,
    deliveries: &[&[u8]],
) -> Result<String, AllocError> {
    let mut page = Page::new();
    if let Err(refusal) = page.start(panel) {
        return format!(in heap; "refused {refusal}");
    }
    let mut short = String::new(heap);
    for bytes in deliveries {
        match page.deliver(panel, bytes) {
            Ok(delivered) => {
                let taken = delivered.taken;
                if taken < bytes.len() {
                    short = format!(in heap; "{taken} taken: ")?;
                }
            }
            Err(refusal) => return format!(in heap; "refused {refusal}"),
        }
    }
    let text = page_text(heap, &page, panel)?;
    format!(in heap; "{short}{text}")
}

// On a window of any panel.
pub(crate) fn on_window<P: Panel>(
    heap: Global,
    below: &mut P,
    frame: Rectangle,
    deliveries: &[&[u8]],
) -> Result<String, AllocError> {
    let mut panel = Window::new(Lent::new(below), frame);
    delivered_on(heap, &mut panel, deliveries)
}

// On a panel, or on a window of it.
fn shown<P: Panel>(
    heap: Global,
    panel: &mut P,
    window: Option<Rectangle>,
    deliveries: &[&[u8]],
) -> Result<String, AllocError> {
    match window {
        None => delivered_on(heap, panel, deliveries),
        Some(frame) => on_window(heap, panel, frame, deliveries),
    }
}

fn on_list(
    heap: Global,
    size: Size,
    window: Option<Rectangle>,
    deliveries: &[&[u8]],
) -> Result<String, AllocError> {
    let mut cells = vec![in heap; ERASED; 8778]?;
    let mut panel = ListPanel::new(&mut cells, size);
    shown(heap, &mut panel, window, deliveries)
}

// Not one function with that for lists: the two make another vector, and that is all they do.
fn on_module(
    heap: Global,
    size: Size,
    window: Option<Rectangle>,
    deliveries: &[&[u8]],
) -> Result<String, AllocError> {
    let mut bytes = vec![in heap; 0xA5; 26334]?;
    let mut panel = ModulePanel::new(&mut bytes, size);
    shown(heap, &mut panel, window, deliveries)
}

// A panel below a window has one line and two columns more, and the window lies in it from its second line and column on.
fn below(size: Size) -> Size {
    Size {
        lines: size.lines.saturating_add(1),
        columns: size.columns.saturating_add(2),
    }
}

fn inner(size: Size) -> Rectangle {
    Rectangle {
        top: 2,
        left: 2,
        lines: size.lines,
        columns: size.columns,
    }
}

pub(crate) fn delivered(
    heap: Global,
    kind: Kind,
    size: Size,
    deliveries: &[&[u8]],
) -> Result<String, AllocError> {
    match kind {
        Kind::List => on_list(heap, size, None, deliveries),
        Kind::Module => on_module(heap, size, None, deliveries),
        Kind::WindowOnList => on_list(heap, below(size), Some(inner(size)), deliveries),
        Kind::WindowOnModule => on_module(heap, below(size), Some(inner(size)), deliveries),
    }
}

pub(crate) fn size(lines: u16, columns: u16) -> Size {
    Size { lines, columns }
}

// Bytes after others, and the page's text on every kind of panel.
pub(crate) fn check_all<'x>(
    rt: &impl Abort,
    heap: Global,
    size: Size,
    first: &'x [u8],
    rows: &'x [(&'x [u8], &'x str)],
) -> Result<(), Fail> {
    for (bytes, text) in rows {
        for kind in KINDS {
            let deliveries = [first, bytes];
            let shown = delivered(heap, kind, size, &deliveries)?;
            assert_eq!(rt; shown.as_str(), *text);
        }
    }
    Ok(())
}
