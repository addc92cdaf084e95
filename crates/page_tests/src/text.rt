// A page as text, so that a test says what it must be in a line.
//
// The cells come first, line by line with `|` between: an erased cell is `.`, any other its character, followed by its
// rendition in braces where that is not 0. Then the position, and what is not as a page begins: `ABC{6}..|..... 1;4 rendition 6`.
use control::function::Report;
use page::page::Page;
use page::view::View;
use panel::{Cell, ERASED, Panel, Position};
use reader::standing::Standing;
use std::alloc::{AllocError, Global};

pub(crate) fn page_text<P: Panel>(
    heap: Global,
    page: &Page,
    panel: &P,
) -> Result<String, AllocError> {
    let cells = cells_text(heap, panel)?;
    let state = state_text(heap, page)?;
    format!(in heap; "{cells} {state}")
}

pub(crate) fn cells_text<P: Panel>(heap: Global, panel: &P) -> Result<String, AllocError> {
    let mut text = String::new(heap);
    let size = panel.size();
    for line in 1..=size.lines {
        if line > 1 {
            text.push('|')?;
        }
        for column in 1..=size.columns {
            if let Ok(cell) = panel.cell(Position { line, column }) {
                put_cell(heap, &mut text, cell)?;
            }
        }
    }
    Ok(text)
}

fn put_cell(heap: Global, text: &mut String, cell: Cell) -> Result<(), AllocError> {
    if cell == ERASED {
        return text.push('.');
    }
    text.push(char::from(cell.code))?;
    let rendition = cell.rendition;
    if rendition > 0 {
        text.push_str(format!(in heap; "{{{rendition}}}")?.as_str())?;
    }
    Ok(())
}

// What a page holds beside its cells.
pub(crate) fn state_text(heap: Global, page: &Page) -> Result<String, AllocError> {
    let Some(view) = page.view() else {
        return String::from_str(heap, "not started");
    };
    let line = view.position.line;
    let column = view.position.column;
    let mut text = format!(in heap; "{line};{column}")?;
    put_rendition(heap, &mut text, &view)?;
    put_words(&mut text, &view)?;
    put_stops(
        heap,
        &mut text,
        " stops",
        view.size.columns,
        &view.column_stops,
    )?;
    put_stops(
        heap,
        &mut text,
        " line stops",
        view.size.lines,
        &view.line_stops,
    )?;
    Ok(text)
}

fn put_rendition(heap: Global, text: &mut String, view: &View) -> Result<(), AllocError> {
    let rendition = view.rendition.number();
    if rendition > 0 {
        text.push_str(format!(in heap; " rendition {rendition}")?.as_str())?;
    }
    Ok(())
}

fn put_words(text: &mut String, view: &View) -> Result<(), AllocError> {
    if view.modes.insertion {
        text.push_str(" insertion")?;
    }
    if view.modes.combination {
        text.push_str(" combination")?;
    }
    if view.standing != Standing::Rest {
        text.push_str(" midway")?;
    }
    match view.owed {
        Some(Report::Status) => text.push_str(" owes status"),
        Some(Report::Position) => text.push_str(" owes position"),
        None => Ok(()),
    }
}

// The places of the stops among the first flags.
fn put_stops(
    heap: Global,
    text: &mut String,
    word: &str,
    count: u16,
    stops: &[bool],
) -> Result<(), AllocError> {
    let mut first = true;
    for (place, stop) in (1..=count).zip(stops.iter()) {
        if *stop {
            if first {
                text.push_str(word)?;
                first = false;
            }
            text.push_str(format!(in heap; " {place}")?.as_str())?;
        }
    }
    Ok(())
}
