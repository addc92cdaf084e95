// The built-in task: the recorded list, delivered as a cable cuts it to a page on a module panel, shown after each part. Then its
// bytes as they are read, and a small panel with its memory.
use crate::cable::Account;
use crate::call::Failure;
use crate::console::Console;
use crate::frame::Look;
use crate::kinds::Kind;
use crate::recorded::PARTS;
use crate::{cable, consoles, frame, items, panel_shown};
use panel::{ModulePanel, Panel, Position, Size};
use std::alloc::AllocError;

const SIZE: Size = Size {
    lines: 6,
    columns: 24,
};

// How many bytes come in one piece.
const PIECE: usize = 5;

pub(crate) fn run(rt: &HostRuntime) -> Result<(), Failure> {
    refuse_size(rt)?;
    let mut memory = [0; 432];
    let mut console = Console::on(ModulePanel::new(&mut memory, SIZE));
    show_parts(rt, &mut console)?;
    consoles::run(rt)?;
    read_parts(rt)?;
    call_panel(rt)
}

// A start on more lines than a page has, which the memory would hold.
fn refuse_size(rt: &HostRuntime) -> Result<(), Failure> {
    let mut memory = [0; 195];
    let mut console = Console::on(ModulePanel::new(
        &mut memory,
        Size {
            lines: 65,
            columns: 1,
        },
    ));
    print!(rt; "Start on a panel of 65 lines: ")?;
    match console.start() {
        Ok(()) => rt.println("accepted")?,
        Err(refusal) => println!(rt; "refused {refusal}")?,
    }
    Ok(())
}

fn show_parts<P: Panel>(rt: &HostRuntime, console: &mut Console<P>) -> Result<(), Failure> {
    try_delivery(rt, console, b"A")?;
    console.start()?;
    let Size { lines, columns } = SIZE;
    println!(rt; "Start on a panel of {lines} lines and {columns} columns: accepted")?;
    let long = [b'A'; 4097];
    try_delivery(rt, console, &long)?;
    for (name, bytes) in PARTS {
        show_part(rt, console, name, bytes)?;
        if console.is_owing() {
            try_delivery(rt, console, b"A")?;
        }
    }
    print!(rt; "The cell at line 7, column 1: ")?;
    match console.panel.cell(Position { line: 7, column: 1 }) {
        Ok(_) => rt.println("there")?,
        Err(refusal) => println!(rt; "refused {refusal}")?,
    }
    Ok(())
}

fn try_delivery<P: Panel>(
    rt: &HostRuntime,
    console: &mut Console<P>,
    bytes: &[u8],
) -> Result<(), Failure> {
    let length = bytes.len();
    print!(rt; "Delivery of length {length}: ")?;
    match console.deliver(bytes) {
        Ok(_) => rt.println("accepted")?,
        Err(refusal) => println!(rt; "refused {refusal}")?,
    }
    Ok(())
}

fn show_part<P: Panel>(
    rt: &HostRuntime,
    console: &mut Console<P>,
    name: &str,
    bytes: &[u8],
) -> Result<(), Failure> {
    let mut account = Account::default();
    for piece in bytes.chunks(PIECE) {
        cable::send(console, &mut account, piece)?;
    }
    println!(rt; "\n{name}")?;
    frame::print_panel(rt, &console.panel, Look::Plain)?;
    frame::print_below(rt, &console.page, account)
}

// The same bytes as the reader reads them.
fn read_parts(rt: &HostRuntime) -> Result<(), Failure> {
    let mut pieces: Vec<&[u8]> = Vec::new(rt.alloc());
    let mut all = Vec::new(rt.alloc());
    for (_, bytes) in PARTS {
        pieces.push(bytes).map_err(AllocError::from)?;
        all.extend_from_slice(bytes)?;
    }
    rt.println("")?;
    items::print_bytes(rt, &pieces, &all)
}

// A panel that is called without a page, small enough that its memory can be read.
fn call_panel(rt: &HostRuntime) -> Result<(), Failure> {
    rt.println("")?;
    rt.println("Calls on a module panel of 3 lines and 4 columns")?;
    panel_shown::run(
        rt,
        Kind::Module,
        Size {
            lines: 3,
            columns: 4,
        },
    )
}
