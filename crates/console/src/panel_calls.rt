// Calls on a panel, each printed with its answer.
use crate::call::Failure;
use crate::shown::DirectionShown;
use panel::{Cell, Direction, Panel, Position, Rectangle, Size, shift};
use refusal::Refusal;
use std::fmt;

#[derive(Clone, Copy)]
pub enum PanelCall {
    Set {
        at: Position,
        cell: Cell,
    },
    Erase {
        from: Position,
        count: usize,
    },
    Shift {
        rectangle: Rectangle,
        direction: Direction,
        count: u16,
    },
}

// Its rendition needs both bytes of a module panel, 2C and 01.
const STAR: Cell = Cell {
    code: b'*',
    rendition: 300,
};

// Of each call one that most sizes take, and then one that reaches past the end.
fn calls_for(size: Size) -> [PanelCall; 6] {
    let Size { lines, columns } = size;
    let last = Position {
        line: lines,
        column: columns,
    };
    let below = Position {
        line: lines.saturating_add(1),
        column: 1,
    };
    let edge = Position {
        line: 1,
        column: columns,
    };
    [
        PanelCall::Set {
            at: last,
            cell: STAR,
        },
        PanelCall::Set {
            at: below,
            cell: STAR,
        },
        PanelCall::Erase {
            from: edge,
            count: 2,
        },
        PanelCall::Erase {
            from: last,
            count: 2,
        },
        PanelCall::Shift {
            rectangle: Rectangle {
                top: 1,
                left: 1,
                lines,
                columns,
            },
            direction: Direction::Left,
            count: 1,
        },
        PanelCall::Shift {
            rectangle: Rectangle {
                top: 2,
                left: 1,
                lines,
                columns,
            },
            direction: Direction::Up,
            count: 0,
        },
    ]
}

pub(crate) fn make_calls<P: Panel>(rt: &HostRuntime, panel: &mut P) -> Result<(), Failure> {
    for call in calls_for(panel.size()) {
        match make(panel, call) {
            Ok(()) => println!(rt; "{call}: accepted")?,
            Err(refusal) => println!(rt; "{call}: refused {refusal}")?,
        }
    }
    Ok(())
}

fn make<P: Panel>(panel: &mut P, call: PanelCall) -> Result<(), Refusal> {
    match call {
        PanelCall::Set { at, cell } => panel.set(at, cell),
        PanelCall::Erase { from, count } => panel.erase(from, count),
        PanelCall::Shift {
            rectangle,
            direction,
            count,
        } => shift(panel, rectangle, direction, count),
    }
}

// Letters from A to Z over and over, in reading order, so that each cell is known by what it holds.
pub(crate) fn set_letters<P: Panel>(panel: &mut P) -> Result<(), Refusal> {
    let codes = (b'A'..=b'Z').cycle();
    for (at, code) in panel.size().positions().zip(codes) {
        panel.set(at, Cell { code, rendition: 0 })?;
    }
    Ok(())
}

impl fmt::Display for PanelCall {
    fn fmt<W: fmt::Write>(&self, f: &mut fmt::Formatter<W>) -> fmt::Result {
        match *self {
            PanelCall::Set { at, cell } => {
                let Position { line, column } = at;
                let Cell { code, rendition } = cell;
                write!(
                    f,
                    "Set {line},{column} to code {code:02X}, rendition {rendition}"
                )
            }
            PanelCall::Erase { from, count } => {
                let Position { line, column } = from;
                write!(f, "Erase {count} cells from {line},{column} on")
            }
            PanelCall::Shift {
                rectangle,
                direction,
                count,
            } => {
                let way = DirectionShown(direction);
                let Rectangle {
                    top,
                    left,
                    lines,
                    columns,
                } = rectangle;
                write!(
                    f,
                    "Shift {way} by {count}, at {top},{left} a rectangle of {lines} by {columns}"
                )
            }
        }
    }
}
