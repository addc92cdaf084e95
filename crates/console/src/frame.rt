// A panel as people see it: a frame around its lines, and below what the page holds.
use crate::cable::Account;
use crate::call::Failure;
use crate::sgr;
use crate::shown::OwedShown;
use page::page::Page;
use panel::{ERASED, Panel, Position};
use std::alloc::{AllocError, Global};

#[derive(Clone, Copy, Debug, PartialEq, Eq)]
pub enum Look {
    // renditions as the terminal has them
    Rendered,
    // no control codes
    Plain,
}

pub(crate) fn print_panel<P: Panel>(
    rt: &HostRuntime,
    panel: &P,
    look: Look,
) -> Result<(), Failure> {
    let heap = rt.alloc();
    let size = panel.size();
    let edge = edge(heap, size.columns)?;
    println!(rt; "{edge}")?;
    for line in 1..=size.lines {
        let text = line_text(heap, panel, line, look)?;
        println!(rt; "|{text}|")?;
    }
    println!(rt; "{edge}")?;
    Ok(())
}

fn edge(heap: Global, columns: u16) -> Result<String, AllocError> {
    let dashes = "-".repeat(heap, columns as usize)?;
    format!(in heap; "+{dashes}+")
}

fn line_text<P: Panel>(
    heap: Global,
    panel: &P,
    line: u16,
    look: Look,
) -> Result<String, AllocError> {
    let mut text = String::new(heap);
    let mut shown = ERASED.rendition;
    for column in 1..=panel.size().columns {
        let cell = panel.cell(Position { line, column }).unwrap_or(ERASED);
        if cell.rendition != shown {
            shown = cell.rendition;
            put_rendition(heap, &mut text, look, shown)?;
        }
        text.push(character(cell.code))?;
    }
    if shown != ERASED.rendition {
        put_rendition(heap, &mut text, look, ERASED.rendition)?;
    }
    Ok(text)
}

fn put_rendition(
    heap: Global,
    text: &mut String,
    look: Look,
    rendition: u16,
) -> Result<(), AllocError> {
    match look {
        Look::Rendered => sgr::put_rendition(heap, text, rendition),
        Look::Plain => Ok(()),
    }
}

// An erased cell is blank. Codes from A0 on are taken as ISO 8859-1, as a frame needs one character for each cell.
fn character(code: u8) -> char {
    match code {
        0x20..=0x7E | 0xA1..=0xFF => char::from(code),
        _ => ' ',
    }
}

pub(crate) fn print_below(rt: &HostRuntime, page: &Page, account: Account) -> Result<(), Failure> {
    let Account { taken, requests } = account;
    if let Some(view) = page.view() {
        let line = view.position.line;
        let column = view.position.column;
        let owed = OwedShown(view.owed);
        println!(rt; "line {line}, column {column}; owed: {owed}; bytes taken: {taken}")?;
    }
    if requests > 0 {
        println!(rt;
            "replies requested: {requests}; none is sent yet, and the bytes after a request go on"
        )?;
    }
    Ok(())
}
