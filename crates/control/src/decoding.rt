// Which control function a function of the reader selects.
ghost use Rattle.std.specs.Prelude.{◌≡◌};
ghost use Rattle.reader.specs.Meaning.{function_of};
ghost use Rattle.control.specs.Tables.{pick};
ghost use Rattle.control.specs.Decoding.{parameter_at, number_at, choice_at, at_most, no_effect, extent_of, clearings, reports, plain_finals, spaced_finals, singles, decoded};

use crate::function::{Clearing, Control, Extent, Report};
use crate::selecting::{numeric, selective};
use reader::function::Function;

// The parameter at a place, if it is there.
fn parameter_at(parameters: &[Option<u16>], at: usize) -> Option<u16>
    ensures { result ≡ parameter_at parameters.now at }
{
    parameters.get(at).copied().flatten()
}

fn number_at(parameters: &[Option<u16>], at: usize) -> u16
    ensures { result ≡ number_at parameters.now at }
{
    numeric(parameter_at(parameters, at))
}

fn choice_at(parameters: &[Option<u16>], at: usize) -> u16
    ensures { result ≡ choice_at parameters.now at }
{
    selective(parameter_at(parameters, at))
}

// A control function that takes at most so many parameters.
fn at_most(most: usize, parameters: &[Option<u16>], control: Control) -> Control
    ensures { result ≡ at_most most parameters.now control }
{
    if parameters.len() <= most {
        control
    } else {
        Control::Nothing
    }
}

fn extent(choice: u16) -> Option<Extent>
    ensures { result ≡ extent_of choice }
{
    match choice {
        0 => Some(Extent::ToEnd),
        1 => Some(Extent::FromStart),
        2 => Some(Extent::All),
        _ => None,
    }
}

fn clearing(choice: u16) -> Control
    ensures { result ≡ pick choice clearings no_effect }
{
    match choice {
        0 => Control::Clear(Clearing::ColumnStop),
        1 => Control::Clear(Clearing::LineStop),
        2 | 3 => Control::Clear(Clearing::AllColumnStops),
        4 => Control::Clear(Clearing::AllLineStops),
        5 => Control::Clear(Clearing::AllStops),
        _ => Control::Nothing,
    }
}

fn request(choice: u16) -> Control
    ensures { result ≡ pick choice reports no_effect }
{
    match choice {
        5 => Control::Request(Report::Status),
        6 => Control::Request(Report::Position),
        _ => Control::Nothing,
    }
}

// The control function of a sequence without intermediates, by its final byte.
fn plain_control(parameters: &[Option<u16>], final_byte: u8) -> Control
    ensures { result ≡ pick final_byte (plain_finals parameters.now) no_effect }
{
    let n = number_at(parameters, 0);
    let choice = choice_at(parameters, 0);
    let extent = extent(choice);
    match final_byte as char {
        '@' => at_most(1, parameters, Control::InsertCharacters(n)),
        'A' | 'k' => at_most(1, parameters, Control::Up(n)),
        'B' | 'e' => at_most(1, parameters, Control::Down(n)),
        'C' | 'a' => at_most(1, parameters, Control::Right(n)),
        'D' | 'j' => at_most(1, parameters, Control::Left(n)),
        'G' | '`' => at_most(1, parameters, Control::ToColumn(n)),
        'H' | 'f' => at_most(2, parameters, Control::GoTo(n, number_at(parameters, 1))),
        'I' => at_most(1, parameters, Control::Tab(n)),
        'J' => at_most(
            1,
            parameters,
            extent.map_or(Control::Nothing, Control::EraseInPage),
        ),
        'K' => at_most(
            1,
            parameters,
            extent.map_or(Control::Nothing, Control::EraseInLine),
        ),
        'L' => at_most(1, parameters, Control::InsertLines(n)),
        'M' => at_most(1, parameters, Control::DeleteLines(n)),
        'P' => at_most(1, parameters, Control::DeleteCharacters(n)),
        'S' => at_most(1, parameters, Control::ScrollUp(n)),
        'T' => at_most(1, parameters, Control::ScrollDown(n)),
        'X' => at_most(1, parameters, Control::EraseCharacters(n)),
        'Y' => at_most(1, parameters, Control::LineTab(n)),
        'Z' => at_most(1, parameters, Control::BackTab(n)),
        'd' => at_most(1, parameters, Control::ToLine(n)),
        'g' => at_most(1, parameters, clearing(choice)),
        'h' => Control::SetModes,
        'l' => Control::ResetModes,
        'm' => Control::SelectRendition,
        'n' => at_most(1, parameters, request(choice)),
        _ => Control::Nothing,
    }
}

// The same after one 20.
fn spaced_control(parameters: &[Option<u16>], final_byte: u8) -> Control
    ensures { result ≡ pick final_byte (spaced_finals parameters.now) no_effect }
{
    let n = number_at(parameters, 0);
    match final_byte as char {
        '@' => at_most(1, parameters, Control::ScrollLeft(n)),
        'A' => at_most(1, parameters, Control::ScrollRight(n)),
        _ => Control::Nothing,
    }
}

// The control function of a C0 or C1 control.
fn single(byte: u8) -> Control
    ensures { result ≡ pick byte singles no_effect }
{
    match byte {
        0x08 => Control::Left(1),
        0x09 => Control::Tab(1),
        0x0A => Control::LineFeed,
        0x0B => Control::LineTab(1),
        0x0D => Control::ToFirstColumn,
        0x85 => Control::NextLine,
        0x88 => Control::SetColumnStop,
        0x8A => Control::SetLineStop,
        0x8D => Control::ReverseLineFeed,
        _ => Control::Nothing,
    }
}

// The control function that a function of the reader selects; nothing where it has no effect.
pub fn decode(function: &Function) -> Control
    ensures { result ≡ decoded (function_of function.now) }
{
    match function {
        Function::Graphic(code) => Control::Character(*code),
        Function::Control(byte) => single(*byte),
        Function::Reset => Control::Reset,
        Function::Sequence(sequence) => {
            if sequence.space {
                spaced_control(sequence.parameters.listed(), sequence.final_byte)
            } else {
                plain_control(sequence.parameters.listed(), sequence.final_byte)
            }
        }
    }
}
