// Panels of each kind, on memory of the program, and what is done on one.
use crate::call::Failure;
use panel::{Cell, ERASED, Lent, ListPanel, ModulePanel, Panel, Rectangle, Size, Window};
use std::str::FromStr;

// Not shared with other programs: each has other kinds, and no library knows a program's words.
#[derive(Clone, Copy, Debug, PartialEq, Eq)]
pub enum Kind {
    List,
    Module,
    // a window on a list panel
    Window,
    // a window on a module panel
    WindowModule,
}

// A word that names no kind of panel.
#[derive(Clone, Copy, Debug)]
pub struct UnknownKind;

impl FromStr for Kind {
    type Err = UnknownKind;

    fn from_str(word: &str) -> Result<Kind, UnknownKind> {
        match word {
            "list" => Ok(Kind::List),
            "module" => Ok(Kind::Module),
            "window" => Ok(Kind::Window),
            "window-module" => Ok(Kind::WindowModule),
            _ => Err(UnknownKind),
        }
    }
}

pub(crate) const MOST: Size = Size {
    lines: 64,
    columns: 132,
};

pub(crate) fn is_page_size(size: Size) -> bool {
    (1..=MOST.lines).contains(&size.lines) && (1..=MOST.columns).contains(&size.columns)
}

// What is done on a panel, whatever its kind.
pub trait OnPanel {
    fn run<P: Panel>(&self, rt: &HostRuntime, panel: &mut P) -> Result<(), Failure>;
}

// The same on a window.
#[derive(Clone, Copy)]
pub struct InWindow<'a, T> {
    frame: Rectangle,
    what: &'a T,
}

impl<T: OnPanel> OnPanel for InWindow<'_, T> {
    fn run<P: Panel>(&self, rt: &HostRuntime, panel: &mut P) -> Result<(), Failure> {
        let mut window = Window::new(Lent::new(panel), self.frame);
        self.what.run(rt, &mut window)
    }
}

// Does it on a list panel, and answers the memory as it is then.
pub(crate) fn on_list<T: OnPanel>(
    rt: &HostRuntime,
    size: Size,
    what: &T,
) -> Result<Vec<Cell>, Failure> {
    let mut memory = vec![in rt.alloc(); ERASED; size.cells()]?;
    let mut panel = ListPanel::new(&mut memory, size);
    what.run(rt, &mut panel)?;
    Ok(memory)
}

// The same on a module panel. Not one function for both: the two make another vector of another length, and that is all they do.
pub(crate) fn on_module<T: OnPanel>(
    rt: &HostRuntime,
    size: Size,
    what: &T,
) -> Result<Vec<u8>, Failure> {
    let mut memory = vec![in rt.alloc(); 0; size.cells().saturating_mul(3)]?;
    let mut panel = ModulePanel::new(&mut memory, size);
    what.run(rt, &mut panel)?;
    Ok(memory)
}

// A panel under a window is as large as can be, and the window lies at its end.
fn at_the_end(size: Size) -> Rectangle {
    Rectangle {
        top: (MOST.lines + 1).saturating_sub(size.lines),
        left: (MOST.columns + 1).saturating_sub(size.columns),
        lines: size.lines,
        columns: size.columns,
    }
}

// Does it on a panel of this kind and size.
pub(crate) fn on_kind<T: OnPanel>(
    rt: &HostRuntime,
    kind: Kind,
    size: Size,
    what: &T,
) -> Result<(), Failure> {
    let frame = at_the_end(size);
    match kind {
        Kind::List => {
            let _ = on_list(rt, size, what)?;
        }
        Kind::Module => {
            let _ = on_module(rt, size, what)?;
        }
        Kind::Window => {
            let _ = on_list(rt, MOST, &InWindow { frame, what })?;
        }
        Kind::WindowModule => {
            let _ = on_module(rt, MOST, &InWindow { frame, what })?;
        }
    }
    Ok(())
}
