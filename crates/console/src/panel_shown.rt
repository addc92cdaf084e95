// The command `panel`: calls on a panel, the panel before and after them, and the memory behind it.
use crate::call::Failure;
use crate::frame::Look;
use crate::kinds::{Kind, OnPanel};
use crate::{frame, kinds, memory, panel_calls};
use panel::{Lent, Panel, Rectangle, Size, Window};

// Calls on a panel, or on a window of it.
#[derive(Clone, Copy)]
struct Calls {
    window: Option<Rectangle>,
}

impl OnPanel for Calls {
    fn run<P: Panel>(&self, rt: &HostRuntime, panel: &mut P) -> Result<(), Failure> {
        panel_calls::set_letters(panel)?;
        match self.window {
            None => show_calls(rt, panel),
            Some(rectangle) => show_window(rt, panel, rectangle),
        }
    }
}

pub(crate) fn run(rt: &HostRuntime, kind: Kind, size: Size) -> Result<(), Failure> {
    let (below, window) = match kind {
        Kind::List | Kind::Module => (size, None),
        Kind::Window | Kind::WindowModule => {
            let below = below(size);
            (below, Some(window_on(below, size)))
        }
    };
    let calls = Calls { window };
    match kind {
        Kind::List | Kind::Window => {
            let cells = kinds::on_list(rt, below, &calls)?;
            memory::print_cells(rt, below, &cells)
        }
        Kind::Module | Kind::WindowModule => {
            let bytes = kinds::on_module(rt, below, &calls)?;
            memory::print_planes(rt, below, &bytes)
        }
    }
}

// A panel under a window has a line and a column more at each side, as far as a panel can be so large.
fn below(size: Size) -> Size {
    Size {
        lines: size.lines.saturating_add(2).min(kinds::MOST.lines),
        columns: size.columns.saturating_add(2).min(kinds::MOST.columns),
    }
}

fn window_on(below: Size, size: Size) -> Rectangle {
    Rectangle {
        top: if size.lines < below.lines { 2 } else { 1 },
        left: if size.columns < below.columns { 2 } else { 1 },
        lines: size.lines,
        columns: size.columns,
    }
}

fn show_calls<P: Panel>(rt: &HostRuntime, panel: &mut P) -> Result<(), Failure> {
    frame::print_panel(rt, panel, Look::Plain)?;
    panel_calls::make_calls(rt, panel)?;
    frame::print_panel(rt, panel, Look::Plain)
}

fn show_window<P: Panel>(
    rt: &HostRuntime,
    below: &mut P,
    rectangle: Rectangle,
) -> Result<(), Failure> {
    {
        let mut window = Window::new(Lent::new(below), rectangle);
        show_calls(rt, &mut window)?;
    }
    let Rectangle {
        top,
        left,
        lines,
        columns,
    } = rectangle;
    println!(rt; "The panel below, with the window of {lines} by {columns} at {top},{left}")?;
    frame::print_panel(rt, below, Look::Plain)
}
