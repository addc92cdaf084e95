// How the program is called, and why it could not do what was asked.
use crate::kinds::Kind;
use crate::show::Show;
use panel::Size;
use refusal::Refusal;
use std::alloc::AllocError;
use std::{fmt, io};

#[derive(Drop)]
pub enum Call {
    Recorded,
    // the path of a file
    Items(String),
    Show(Show),
    Panel(Kind, Size),
}

#[derive(Drop)]
pub enum Failure {
    // the arguments are no text
    Arguments(io::Error),
    UnknownCommand(String),
    // a command, and what it is not given
    Missing(&'static str, &'static str),
    // a command, and a word after all that it takes
    Superfluous(&'static str, String),
    UnknownKind(String),
    // a word that is no number of lines or columns
    NoNumber(String),
    // a size that no page has
    NoPage(Size),
    // a size that no panel on memory has
    NoPanel(Size),
    Refused(Refusal),
    // the path of a file, and why it was not read
    Unread(String, io::Error),
    Unwritten(io::Error),
    Memory,
}

const USAGE: &str = "usage: console                                           show the recorded list
       console items FILE                                read the bytes of a file
       console show KIND LINES COLUMNS FILE [--plain]    show the bytes of a file on a panel
       console panel KIND LINES COLUMNS                  make calls on a panel and show its memory
KIND is list, module, window or window-module; LINES is 1 to 64, COLUMNS 1 to 132";

impl fmt::Display for Failure {
    fn fmt<W: fmt::Write>(&self, f: &mut fmt::Formatter<W>) -> fmt::Result {
        f.write_str("console: ")?;
        match self {
            Failure::Unwritten(why) => write!(f, "cannot print: {why}"),
            Failure::Memory => f.write_str("there is not enough memory"),
            _ => {
                show_wrong_call(self, f)?;
                write!(f, "\n{USAGE}")
            }
        }
    }
}

fn show_wrong_call<W: fmt::Write>(failure: &Failure, f: &mut fmt::Formatter<W>) -> fmt::Result {
    match failure {
        Failure::Arguments(why) => write!(f, "cannot read the arguments: {why}"),
        Failure::UnknownCommand(word) => write!(f, "'{word}' is no command"),
        Failure::Missing(command, what) => write!(f, "'{command}' needs {what}"),
        Failure::Superfluous(command, word) => write!(
            f,
            "'{command}' takes no more words, '{word}' is too much"
        ),
        Failure::UnknownKind(word) => write!(f, "'{word}' is no kind of panel"),
        Failure::NoNumber(word) => write!(f, "'{word}' is no number of lines or columns"),
        Failure::NoPage(size) => {
            let lines = size.lines;
            let columns = size.columns;
            write!(f, "no page has {lines} lines and {columns} columns")
        }
        Failure::NoPanel(size) => {
            let lines = size.lines;
            let columns = size.columns;
            write!(
                f,
                "no panel on memory has {lines} lines and {columns} columns"
            )
        }
        Failure::Refused(refusal) => write!(f, "refused {refusal}"),
        Failure::Unread(path, why) => write!(f, "cannot read '{path}': {why}"),
        _ => Ok(()),
    }
}

impl From<io::Error> for Failure {
    fn from(why: io::Error) -> Failure {
        Failure::Unwritten(why)
    }
}

impl From<AllocError> for Failure {
    fn from(_why: AllocError) -> Failure {
        Failure::Memory
    }
}

impl From<Refusal> for Failure {
    fn from(refusal: Refusal) -> Failure {
        Failure::Refused(refusal)
    }
}
