// Refusals: every way in which a call of the panel, the page or the writer says no.
//
// A refused call changes nothing. Its refusal tells a number, a word, the layer that found it and a place: nothing, the length
// that was needed, or a line and column. `specs/Table.antt` has the table, case by case; contracts of other crates are stated
// with its `answer`. This crate knows no panel, no page and no bytes.

#![tactic(auto)]

ghost use Rattle.std.specs.Prelude.{◌≡◌, Some};
ghost use Rattle.refusal.specs.Table.{number, layer, place};
ghost use Rattle.refusal.specs.Words.{word, layer_word, place_text, text};

use std::error::Error;
use std::fmt;

#[derive(Debug, Clone, Copy, PartialEq, Eq)]
pub enum Layer {
    Panel,
    Writer,
    Page,
}

// What a refusal points at. Three forms, so no Option.
#[derive(Debug, Clone, Copy, PartialEq, Eq)]
pub enum Place {
    Nowhere,
    Length(usize),
    // Not a position: that is of a crate above.
    At { line: u16, column: u16 },
}

#[derive(Debug, Clone, Copy, PartialEq, Eq)]
pub enum Refusal {
    // The panel's size is outside 1 to 64 lines by 1 to 132 columns.
    PanelSize,
    // The page is not started, or the panel is of another size.
    OtherPanel,
    // More than 4,096 bytes were delivered at once.
    TooLong,
    // A reply has to be sent first.
    ReplyOwed,
    // There is no reply to send.
    NothingOwed,
    // The reader is inside an escape, a sequence or a string.
    Unfinished,
    // The first cell that no byte could have put there.
    ForeignCell { line: u16, column: u16 },
    ShortBuffer { needed: usize },
    // A value to be written is outside its range.
    OutOfRange,
    // The line and column asked for, where it or another cell named lies off the panel.
    OutsidePanel { line: u16, column: u16 },
}

// The number and the word are calls of their own; `Display` prints both, with layer and place.
impl Refusal {
    pub fn number(self) -> u8
        ensures { result ≡ number self }
    {
        match self {
            Refusal::PanelSize => 1,
            Refusal::OtherPanel => 2,
            Refusal::TooLong => 3,
            Refusal::ReplyOwed => 4,
            Refusal::NothingOwed => 5,
            Refusal::Unfinished => 6,
            Refusal::ForeignCell { .. } => 7,
            Refusal::ShortBuffer { .. } => 8,
            Refusal::OutOfRange => 9,
            Refusal::OutsidePanel { .. } => 10,
        }
    }

    pub fn layer(self) -> Layer
        ensures { result ≡ layer self }
    {
        match self {
            Refusal::ShortBuffer { .. } | Refusal::OutOfRange => Layer::Writer,
            Refusal::OutsidePanel { .. } => Layer::Panel,
            _ => Layer::Page,
        }
    }

    pub fn place(self) -> Place
        ensures { result ≡ place self }
    {
        match self {
            Refusal::ForeignCell { line, column } | Refusal::OutsidePanel { line, column } =>
                Place::At { line, column },
            Refusal::ShortBuffer { needed } => Place::Length(needed),
            _ => Place::Nowhere,
        }
    }

    pub fn word(self) -> &'static str
        ensures { result.now ≡ word self }
    {
        match self {
            Refusal::PanelSize => "Size",
            Refusal::OtherPanel => "Stranger",
            Refusal::TooLong => "Long",
            Refusal::ReplyOwed => "Owing",
            Refusal::NothingOwed => "Quits",
            Refusal::Unfinished => "Midway",
            Refusal::ForeignCell { .. } => "Foreign",
            Refusal::ShortBuffer { .. } => "Short",
            Refusal::OutOfRange => "Misfit",
            Refusal::OutsidePanel { .. } => "Outside",
        }
    }
}

impl fmt::Display for Layer {
    ghost output = { λ l. Some (layer_word l) };

    fn fmt<W: fmt::Write>(&self, f: &mut fmt::Formatter<W>) -> fmt::Result {
        match *self {
            Layer::Panel => f.write_str("panel"),
            Layer::Writer => f.write_str("writer"),
            Layer::Page => f.write_str("page"),
        }
    }
}

impl fmt::Display for Place {
    ghost output = { λ p. Some (place_text p) };

    fn fmt<W: fmt::Write>(&self, f: &mut fmt::Formatter<W>) -> fmt::Result {
        match *self {
            Place::Nowhere => f.write_str("0"),
            Place::Length(n) => write!(f, "{n}"),
            Place::At { line, column } => write!(f, "{line},{column}"),
        }
    }
}

impl fmt::Display for Refusal {
    ghost output = { λ r. Some (text r) };

    fn fmt<W: fmt::Write>(&self, f: &mut fmt::Formatter<W>) -> fmt::Result {
        let number = self.number();
        let word = self.word();
        let layer = self.layer();
        let place = self.place();
        write!(f, "{number} {word} {layer} {place}")
    }
}

impl Error for Refusal {}
