// Two consoles: one in the tower, on a module panel, and one for practice, on a window over a list panel. Halfway the second takes a
// picture of the first and goes on as its equal; both take the rest of the stream, cut differently, and are compared at the end.
use crate::call::Failure;
use crate::console::Console;
use crate::frame::Look;
use crate::recorded::PARTS;
use crate::{frame, refused, transcripts};
use panel::{ERASED, ListPanel, ModulePanel, Panel, Rectangle, Size, Window};
use refusal::Refusal;
use turns::comparing::same_pages;
use turns::copying::copy_page;
use turns::running::run_turns;
use turns::running_two::run_two;

const SIZE: Size = Size {
    lines: 6,
    columns: 24,
};

// Where the practice console's page lies on the panel below.
const FRAME: Rectangle = Rectangle {
    top: 2,
    left: 3,
    lines: SIZE.lines,
    columns: SIZE.columns,
};

// How long the pieces are that the cable makes, before the picture and after it.
const BEFORE: usize = 5;

const AFTER_IN_TOWER: usize = 3;

const AFTER_IN_PRACTICE: usize = 11;

// More than a picture of this size can need in this task.
const ROOM: usize = 2048;

pub(crate) fn run(rt: &HostRuntime) -> Result<(), Failure> {
    rt.println("\nTwo consoles")?;
    let mut bytes = [0; 432];
    let mut tower = Console::on(ModulePanel::new(&mut bytes, SIZE));
    let mut cells = [ERASED; 224];
    let below = ListPanel::new(
        &mut cells,
        Size {
            lines: 8,
            columns: 28,
        },
    );
    let mut practice = Console::on(Window::new(below, FRAME));
    play(rt, &mut tower, &mut practice)
}

fn play<P: Panel, Q: Panel>(
    rt: &HostRuntime,
    tower: &mut Console<P>,
    practice: &mut Console<Q>,
) -> Result<(), Failure> {
    tower.start()?;
    practice.start()?;
    begin(rt, tower, practice)?;
    copy(rt, tower, practice)?;
    go_on(rt, tower, practice)?;
    compare(rt, tower, practice)
}

// The first two parts go to the tower; the practice console is in the middle of something of its own.
fn begin<P: Panel, Q: Panel>(
    rt: &HostRuntime,
    tower: &mut Console<P>,
    practice: &mut Console<Q>,
) -> Result<(), Failure> {
    let heap = rt.alloc();
    let list = transcripts::list_of(heap, &PARTS[0..2], BEFORE)?;
    let transcript = run_turns(heap, &mut tower.page, &mut tower.panel, &list)?;
    transcripts::print(rt, "tower", &transcript)?;
    let _ = practice.deliver(b"PRACTICE\x1b[3;")?;
    refused::show_unfinished(rt, practice)
}

// The practice console takes a picture of the tower's.
fn copy<P: Panel, Q: Panel>(
    rt: &HostRuntime,
    tower: &Console<P>,
    practice: &mut Console<Q>,
) -> Result<(), Failure> {
    let mut short = [0; 20];
    print!(rt; "A copy through a buffer of 20 bytes: ")?;
    match copy_to(tower, practice, &mut short) {
        Ok(length) => println!(rt; "a picture of {length} bytes")?,
        Err(refusal) => refused::print(rt, refusal)?,
    }
    let mut buffer = vec![in rt.alloc(); 0; ROOM]?;
    let length = copy_to(tower, practice, &mut buffer)?;
    println!(rt; "The practice console takes a picture of {length} bytes")?;
    frame::print_panel(rt, &practice.panel, Look::Plain)
}

fn copy_to<P: Panel, Q: Panel>(
    from: &Console<P>,
    to: &mut Console<Q>,
    buffer: &mut [u8],
) -> Result<usize, Refusal> {
    copy_page(&from.page, &from.panel, &mut to.page, &mut to.panel, buffer)
}

// The other parts go to both, cut differently.
fn go_on<P: Panel, Q: Panel>(
    rt: &HostRuntime,
    tower: &mut Console<P>,
    practice: &mut Console<Q>,
) -> Result<(), Failure> {
    let heap = rt.alloc();
    let list = transcripts::list_of(heap, &PARTS[2..3], AFTER_IN_TOWER)?;
    let other_list = transcripts::list_of(heap, &PARTS[2..3], AFTER_IN_PRACTICE)?;
    let (first, second) = run_two(
        heap,
        &mut tower.page,
        &mut tower.panel,
        &list,
        &mut practice.page,
        &mut practice.panel,
        &other_list,
    )?;
    transcripts::print(rt, "tower", &first)?;
    transcripts::print(rt, "practice", &second)
}

fn compare<P: Panel, Q: Panel>(
    rt: &HostRuntime,
    tower: &Console<P>,
    practice: &Console<Q>,
) -> Result<(), Failure> {
    rt.println("In the tower")?;
    frame::print_panel(rt, &tower.panel, Look::Plain)?;
    rt.println("At practice")?;
    frame::print_panel(rt, &practice.panel, Look::Plain)?;
    let mut first = vec![in rt.alloc(); 0; ROOM]?;
    let mut second = vec![in rt.alloc(); 0; ROOM]?;
    let equal = same_pages(
        &tower.page,
        &tower.panel,
        &practice.page,
        &practice.panel,
        &mut first,
        &mut second,
    )?;
    rt.println(if equal {
        "The two are equal"
    } else {
        "The two differ"
    })?;
    Ok(())
}
