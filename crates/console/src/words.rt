// The words that the program is called with.
use crate::call::{Call, Failure};
use crate::frame::Look;
use crate::kinds;
use crate::kinds::{Kind, UnknownKind};
use crate::show::Show;
use panel::Size;
use std::env;
use std::env::Args;
use std::iter::Skip;

type Words = Skip<Args>;

pub(crate) fn called(rt: &HostRuntime) -> Result<Call, Failure> {
    let mut words = env::args(rt).map_err(Failure::Arguments)?.skip(1);
    let Some(command) = words.next() else {
        return Ok(Call::Recorded);
    };
    match command.as_str() {
        "items" => items(&mut words),
        "show" => show(&mut words),
        "panel" => panel(&mut words),
        _ => Err(Failure::UnknownCommand(command)),
    }
}

fn word(words: &mut Words, command: &'static str, what: &'static str) -> Result<String, Failure> {
    words.next().ok_or(Failure::Missing(command, what))
}

fn end(words: &mut Words, command: &'static str) -> Result<(), Failure> {
    match words.next() {
        Some(word) => Err(Failure::Superfluous(command, word)),
        None => Ok(()),
    }
}

fn items(words: &mut Words) -> Result<Call, Failure> {
    let path = word(words, "items", "a file")?;
    end(words, "items")?;
    Ok(Call::Items(path))
}

fn show(words: &mut Words) -> Result<Call, Failure> {
    let (kind, size) = kind_and_size(words, "show")?;
    if !kinds::is_page_size(size) {
        return Err(Failure::NoPage(size));
    }
    let path = word(words, "show", "a file")?;
    let look = look(words)?;
    Ok(Call::Show(Show {
        kind,
        size,
        path,
        look,
    }))
}

fn panel(words: &mut Words) -> Result<Call, Failure> {
    let (kind, size) = kind_and_size(words, "panel")?;
    if !kinds::is_page_size(size) {
        return Err(Failure::NoPanel(size));
    }
    end(words, "panel")?;
    Ok(Call::Panel(kind, size))
}

fn kind_and_size(words: &mut Words, command: &'static str) -> Result<(Kind, Size), Failure> {
    let kind = kind(word(words, command, "a kind of panel")?)?;
    let lines = number(word(words, command, "a number of lines")?)?;
    let columns = number(word(words, command, "a number of columns")?)?;
    Ok((kind, Size { lines, columns }))
}

fn kind(word: String) -> Result<Kind, Failure> {
    word.parse()
        .map_err(|_: UnknownKind| Failure::UnknownKind(word))
}

fn number(word: String) -> Result<u16, Failure> {
    word.parse::<u16>().map_err(|_| Failure::NoNumber(word))
}

fn look(words: &mut Words) -> Result<Look, Failure> {
    let Some(word) = words.next() else {
        return Ok(Look::Rendered);
    };
    if word.as_str() != "--plain" {
        return Err(Failure::Superfluous("show", word));
    }
    end(words, "show")?;
    Ok(Look::Plain)
}
