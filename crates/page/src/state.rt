// What a page holds beside the cells, which are the panel's.
ghost use Rattle.std.specs.Prelude.{◌≡◌, ◌≤◌};
ghost use Rattle.control.specs.Renditions.{number};

use crate::stops::Stops;
use control::function::Report;
use control::modes::Modes;
use control::rendition::Rendition;
use panel::{Position, Size};
use reader::reader::Reader;

// The position lies on the page, whatever was done to it: that is part of the type.
#[derive(Clone, Copy)]
pub struct State {
    pub(crate) size: Size,
    pub(crate) position: Position,
    pub(crate) rendition: Rendition,
    // its number, kept beside it, since every character has it
    pub(crate) rendition_number: u16,
    pub(crate) column_stops: Stops<132>,
    pub(crate) line_stops: Stops<64>,
    pub(crate) modes: Modes,
    pub(crate) reader: Reader,
    pub(crate) owed: Option<Report>,
    ghost numbered: { rendition_number ≡ number rendition },
    ghost few_lines: { size.lines ≤ 64 },
    ghost few_columns: { size.columns ≤ 132 },
    ghost line_from: { 1 ≤ position.line },
    ghost line_to: { position.line ≤ size.lines },
    ghost column_from: { 1 ≤ position.column },
    ghost column_to: { position.column ≤ size.columns },
}
