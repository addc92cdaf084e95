// How standings, functions, replies and directions are shown.
use crate::names;
use crate::names::Name;
use control::function::Report;
use panel::Direction;
use reader::function::{Function, Sequence};
use reader::parameters::Parameters;
use reader::standing::Standing;
use std::fmt;

// Parameters as they were sent, an empty one as nothing: 3;;7.
#[derive(Clone, Copy)]
pub struct ParametersShown<'a>(pub &'a Parameters);

#[derive(Clone, Copy)]
pub struct StandingShown(pub Standing);

#[derive(Clone, Copy)]
pub struct FunctionShown(pub Function);

#[derive(Clone, Copy)]
pub struct OwedShown(pub Option<Report>);

#[derive(Clone, Copy)]
pub struct DirectionShown(pub Direction);

impl fmt::Display for ParametersShown<'_> {
    fn fmt<W: fmt::Write>(&self, f: &mut fmt::Formatter<W>) -> fmt::Result {
        for (i, parameter) in self.0.listed().iter().enumerate() {
            if i > 0 {
                f.write_str(";")?;
            }
            if let Some(number) = parameter {
                write!(f, "{number}")?;
            }
        }
        Ok(())
    }
}

impl fmt::Display for StandingShown {
    fn fmt<W: fmt::Write>(&self, f: &mut fmt::Formatter<W>) -> fmt::Result {
        match &self.0 {
            Standing::Rest => f.write_str("at rest"),
            Standing::Escape {
                intermediates: false,
            } => f.write_str("after ESC"),
            Standing::Escape {
                intermediates: true,
            } => f.write_str("after ESC and intermediate bytes"),
            Standing::Sequence {
                parameters: Some(parameters),
            } => show_sequence(parameters, f),
            Standing::Sequence { parameters: None } => f.write_str(
                "in a sequence that performs nothing",
            ),
            Standing::Intermediates {
                parameters: Some(parameters),
            } => {
                show_sequence(parameters, f)?;
                f.write_str(", then 20")
            }
            Standing::Intermediates { parameters: None } => {
                f.write_str("in a sequence that performs nothing, after intermediate bytes")
            }
            Standing::CommandString => f.write_str("in a command string"),
            Standing::Sos { escape: false } => f.write_str("in an SOS string"),
            Standing::Sos { escape: true } => f.write_str("in an SOS string, after ESC"),
        }
    }
}

fn show_sequence<W: fmt::Write>(parameters: &Parameters, f: &mut fmt::Formatter<W>) -> fmt::Result {
    if parameters.listed().is_empty() {
        return f.write_str("in a sequence, no parameter");
    }
    let shown = ParametersShown(parameters);
    write!(f, "in a sequence, parameters {shown}")
}

impl fmt::Display for FunctionShown {
    fn fmt<W: fmt::Write>(&self, f: &mut fmt::Formatter<W>) -> fmt::Result {
        match &self.0 {
            Function::Graphic(code) => write!(f, "{code:02X}"),
            Function::Control(code) => match names::control_name(*code) {
                Some(name) => f.write_str(name),
                None => write!(f, "control {code:02X}"),
            },
            Function::Reset => f.write_str("RIS (reset to initial state)"),
            Function::Sequence(sequence) => show_call(sequence, f),
        }
    }
}

impl fmt::Display for OwedShown {
    fn fmt<W: fmt::Write>(&self, f: &mut fmt::Formatter<W>) -> fmt::Result {
        f.write_str(match self.0 {
            None => "nothing",
            Some(Report::Status) => "the status",
            Some(Report::Position) => "the position",
        })
    }
}

impl fmt::Display for DirectionShown {
    fn fmt<W: fmt::Write>(&self, f: &mut fmt::Formatter<W>) -> fmt::Result {
        f.write_str(match self.0 {
            Direction::Up => "up",
            Direction::Down => "down",
            Direction::Left => "left",
            Direction::Right => "right",
        })
    }
}

fn show_call<W: fmt::Write>(sequence: &Sequence, f: &mut fmt::Formatter<W>) -> fmt::Result {
    let parameters = ParametersShown(&sequence.parameters);
    let part = if sequence.parameters.listed().is_empty() {
        ""
    } else {
        " "
    };
    match names::sequence_name(sequence) {
        Some(Name { letters, words }) => write!(f, "{letters}{part}{parameters} ({words})"),
        None => {
            let space = if sequence.space { " 20" } else { "" };
            let last = sequence.final_byte;
            write!(f, "sequence{part}{parameters}{space} {last:02X}")
        }
    }
}
