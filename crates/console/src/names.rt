// The names that ECMA-48 gives control functions.
use reader::function::Sequence;

// C0 controls by their code.
const C0: [&str; 32] = [
    "NUL", "SOH", "STX", "ETX", "EOT", "ENQ", "ACK", "BEL", "BS", "HT", "LF", "VT", "FF", "CR",
    "SO", "SI", "DLE", "DC1", "DC2", "DC3", "DC4", "NAK", "SYN", "ETB", "CAN", "EM", "SUB", "ESC",
    "IS4", "IS3", "IS2", "IS1",
];

// C1 controls by their code less 80; empty where ECMA-48 gives no name, and no Option, so that it reads as a table.
const C1: [&str; 32] = [
    "", "", "BPH", "NBH", "", "NEL", "SSA", "ESA", "HTS", "HTJ", "VTS", "PLD", "PLU", "RI", "SS2",
    "SS3", "DCS", "PU1", "PU2", "STS", "CCH", "MW", "SPA", "EPA", "SOS", "", "SCI", "CSI", "ST",
    "OSC", "PM", "APC",
];

// A function that a control sequence calls for, by its final byte.
#[derive(Clone, Copy)]
pub struct Name {
    pub letters: &'static str,
    pub words: &'static str,
}

pub(crate) fn control_name(code: u8) -> Option<&'static str> {
    let name = match code {
        0x00..=0x1F => C0[code as usize],
        0x80..=0x9F => C1[code as usize - 0x80],
        _ => return None,
    };
    (!name.is_empty()).then_some(name)
}

// The name of what a sequence calls for, where the panel has a function of it.
pub(crate) fn sequence_name(sequence: &Sequence) -> Option<Name> {
    let last = char::from(sequence.final_byte);
    if sequence.space {
        return named_after_space(last);
    }
    moving(last).or(changing(last)).or(setting(last))
}

fn named(letters: &'static str, words: &'static str) -> Option<Name> {
    Some(Name { letters, words })
}

fn named_after_space(last: char) -> Option<Name> {
    match last {
        '@' => named("SL", "scroll left"),
        'A' => named("SR", "scroll right"),
        _ => None,
    }
}

// Functions that move the active position.
fn moving(last: char) -> Option<Name> {
    match last {
        'A' => named("CUU", "cursor up"),
        'B' => named("CUD", "cursor down"),
        'C' => named("CUF", "cursor right"),
        'D' => named("CUB", "cursor left"),
        'G' => named("CHA", "cursor character absolute"),
        'H' => named("CUP", "cursor position"),
        'I' => named("CHT", "cursor forward tabulation"),
        'Y' => named("CVT", "cursor line tabulation"),
        'Z' => named("CBT", "cursor backward tabulation"),
        '`' => named("HPA", "character position absolute"),
        'a' => named("HPR", "character position forward"),
        'd' => named("VPA", "line position absolute"),
        'e' => named("VPR", "line position forward"),
        'f' => named("HVP", "character and line position"),
        'j' => named("HPB", "character position backward"),
        'k' => named("VPB", "line position backward"),
        _ => None,
    }
}

// Functions that erase, insert, delete or scroll.
fn changing(last: char) -> Option<Name> {
    match last {
        '@' => named("ICH", "insert character"),
        'J' => named("ED", "erase in page"),
        'K' => named("EL", "erase in line"),
        'L' => named("IL", "insert line"),
        'M' => named("DL", "delete line"),
        'P' => named("DCH", "delete character"),
        'S' => named("SU", "scroll up"),
        'T' => named("SD", "scroll down"),
        'X' => named("ECH", "erase character"),
        _ => None,
    }
}

// Functions that set stops, modes and renditions, and the one that requests a report.
fn setting(last: char) -> Option<Name> {
    match last {
        'g' => named("TBC", "tabulation clear"),
        'h' => named("SM", "set mode"),
        'l' => named("RM", "reset mode"),
        'm' => named("SGR", "select graphic rendition"),
        'n' => named("DSR", "device status report"),
        _ => None,
    }
}
