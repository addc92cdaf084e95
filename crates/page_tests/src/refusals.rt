// Refusals in their order: each leaves the page, the cells and the memory beyond them as they were.
use crate::kinds::{on_window, size};
use crate::text::{cells_text, page_text};
use page::page::Page;
use panel::{Cell, ListPanel, Panel, Rectangle};
use std::alloc::{AllocError, Global};
use std::process::Abort;
use std::test::Fail;

const MARK: Cell = Cell {
    code: 0x5A,
    rendition: 9,
};

// Whether each cell is as it was before.
fn is_marked(cells: &[Cell]) -> bool {
    cells.iter().all(|cell| *cell == MARK)
}

fn deliver_text<P: Panel>(
    heap: Global,
    page: &mut Page,
    panel: &mut P,
    bytes: &[u8],
) -> Result<String, AllocError> {
    match page.deliver(panel, bytes) {
        Ok(delivered) => {
            let taken = delivered.taken;
            format!(in heap; "{taken} taken")
        }
        Err(refusal) => format!(in heap; "{refusal}"),
    }
}

fn start_text<P: Panel>(
    heap: Global,
    page: &mut Page,
    panel: &mut P,
) -> Result<String, AllocError> {
    match page.start(panel) {
        Ok(()) => String::from_str(heap, "started"),
        Err(refusal) => format!(in heap; "{refusal}"),
    }
}

// A delivery that must be refused so, and must leave page and cells.
fn check_refused<P: Panel>(
    rt: &impl Abort,
    heap: Global,
    page: &mut Page,
    panel: &mut P,
    bytes: &[u8],
    refusal: &str,
) -> Result<(), Fail> {
    let before = page_text(heap, page, panel)?;
    assert_eq!(rt; deliver_text(heap, page, panel, bytes)?.as_str(), refusal);
    let after = page_text(heap, page, panel)?;
    assert_eq!(rt; after.as_str(), before.as_str());
    Ok(())
}

#[test]
fn before_start(rt: HostRuntime) -> Result<(), Fail> {
    let heap = rt.alloc();
    let mut page = Page::new();
    let mut cells = [MARK; 11];
    let long = vec![in heap; b'A'; 4097]?;
    let mut panel = ListPanel::new(&mut cells, size(2, 5));
    check_refused(&rt, heap, &mut page, &mut panel, b"", "2 Stranger page 0")?;
    check_refused(&rt, heap, &mut page, &mut panel, &long, "2 Stranger page 0")?;
    let mut none = [MARK; 9];
    let mut short = ListPanel::new(&mut none, size(2, 5));
    assert_eq!(rt;
        start_text(heap, &mut page, &mut short)?.as_str(),
        "1 Size page 0"
    );
    check_refused(&rt, heap, &mut page, &mut short, b"A", "2 Stranger page 0")?;
    assert!(rt; page.view().is_none());
    assert!(rt; is_marked(&cells));
    assert!(rt; is_marked(&none));
    Ok(())
}

#[test]
fn after_start(rt: HostRuntime) -> Result<(), Fail> {
    let heap = rt.alloc();
    let mut page = Page::new();
    let mut cells = [MARK; 11];
    let mut other = [MARK; 8];
    let long = vec![in heap; b'A'; 4097]?;
    let mut panel = ListPanel::new(&mut cells, size(2, 5));
    let mut narrow = ListPanel::new(&mut other, size(2, 4));
    assert_eq!(rt;
        start_text(heap, &mut page, &mut panel)?.as_str(),
        "started"
    );
    check_refused(
        &rt,
        heap,
        &mut page,
        &mut narrow,
        &long,
        "2 Stranger page 0",
    )?;
    check_refused(&rt, heap, &mut page, &mut panel, &long, "3 Long page 0")?;
    assert_eq!(rt;
        deliver_text(heap, &mut page, &mut panel, b"AB\x9b6nC")?.as_str(),
        "5 taken"
    );
    check_refused(&rt, heap, &mut page, &mut narrow, b"", "2 Stranger page 0")?;
    check_refused(&rt, heap, &mut page, &mut panel, &long, "3 Long page 0")?;
    check_refused(&rt, heap, &mut page, &mut panel, b"C", "4 Owing page 0")?;
    check_refused(&rt, heap, &mut page, &mut panel, b"", "4 Owing page 0")?;
    page.settle();
    assert_eq!(rt;
        deliver_text(heap, &mut page, &mut panel, b"C")?.as_str(),
        "1 taken"
    );
    assert_eq!(rt; page_text(heap, &page, &panel)?.as_str(), "ABC..|..... 1;4");
    assert!(rt; is_marked(&other));
    assert!(rt; is_marked(&cells[10..11]));
    Ok(())
}

// A start that is refused leaves the page that was started; one that is accepted begins anew, at the new size.
#[test]
fn start_again(rt: HostRuntime) -> Result<(), Fail> {
    let heap = rt.alloc();
    let mut page = Page::new();
    let mut cells = [MARK; 10];
    let mut few = [MARK; 3];
    let mut more = [MARK; 4];
    let mut panel = ListPanel::new(&mut cells, size(2, 5));
    let mut bad = ListPanel::new(&mut few, size(2, 2));
    let mut small = ListPanel::new(&mut more, size(2, 2));
    assert_eq!(rt;
        start_text(heap, &mut page, &mut panel)?.as_str(),
        "started"
    );
    assert_eq!(rt;
        deliver_text(
            heap,
            &mut page,
            &mut panel,
            b"\x1b[1;7mAB\x1b[4h\x88\x1b[6n",
        )?
        .as_str(),
        "17 taken"
    );
    let before = page_text(heap, &page, &panel)?;
    assert_eq!(rt;
        start_text(heap, &mut page, &mut bad)?.as_str(),
        "1 Size page 0"
    );
    assert_eq!(rt; page_text(heap, &page, &panel)?.as_str(), before.as_str());
    assert_eq!(rt;
        start_text(heap, &mut page, &mut small)?.as_str(),
        "started"
    );
    assert_eq!(rt; page_text(heap, &page, &small)?.as_str(), "..|.. 1;1");
    check_refused(&rt, heap, &mut page, &mut panel, b"A", "2 Stranger page 0")
}

// Cells beside a window, and elements past the panel below, are kept.
#[test]
fn beside_a_window(rt: HostRuntime) -> Result<(), Fail> {
    let heap = rt.alloc();
    let mut cells = [MARK; 13];
    let frame = Rectangle {
        top: 2,
        left: 2,
        lines: 2,
        columns: 2,
    };
    let mut below = ListPanel::new(&mut cells, size(3, 4));
    let shown = on_window(heap, &mut below, frame, &[b"AB\r\nCD\n\x1b[L"])?;
    assert_eq!(rt; shown.as_str(), "CD|.. 2;1");
    assert_eq!(rt;
        cells_text(heap, &below)?.as_str(),
        "Z{9}Z{9}Z{9}Z{9}|Z{9}CDZ{9}|Z{9}..Z{9}"
    );
    assert!(rt; is_marked(&cells[12..13]));
    Ok(())
}
