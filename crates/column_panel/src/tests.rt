use crate::ColumnPanel;
use panel::{Cell, Direction, ERASED, Panel, Position, Rectangle, Size, Window, shift};

// A cell with its line and column as its code and rendition.
fn named(line: u16, column: u8) -> Cell {
    Cell {
        code: column,
        rendition: line,
    }
}

fn name_all<P: Panel>(panel: &mut P) {
    for line in 1..3u16 {
        for column in 1..4u8 {
            let _ = panel.set(at(line, column as u16), named(line, column));
        }
    }
}

fn at(line: u16, column: u16) -> Position {
    Position { line, column }
}

fn size(lines: u16, columns: u16) -> Size {
    Size { lines, columns }
}

#[test]
fn columns_are_stored_first(rt: HostRuntime) {
    let mut cells = [named(9, 9); 7];
    {
        let mut p = ColumnPanel::new(&mut cells, size(2, 3));
        name_all(&mut p);
        assert!(rt; p.set(at(3, 1), ERASED).is_err());
        assert!(rt; p.cell(at(2, 3)) == Ok(named(2, 3)));
        assert!(rt; p.erase(at(1, 3), 2).is_ok());
        assert!(rt; p.erase(at(2, 3), 2).is_err());
    }
    assert!(rt; cells[0] == named(1, 1));
    assert!(rt; cells[1].code == 0 && cells[2].code == 2);
    assert!(rt; cells[3] == named(2, 2));
    assert!(rt; cells[4].code == 0 && cells[5].code == 3);
    assert!(rt; cells[6].code == 9);
}

#[test]
fn what_is_written_for_any_panel_holds_of_this_one(rt: HostRuntime) {
    let mut cells = [ERASED; 6];
    let mut p = ColumnPanel::new(&mut cells, size(2, 3));
    name_all(&mut p);
    let part = Rectangle {
        top: 1,
        left: 1,
        lines: 2,
        columns: 3,
    };
    assert!(rt; shift(&mut p, part, Direction::Right, 1).is_ok());
    assert!(rt; p.cell(at(2, 1)) == Ok(ERASED) && p.cell(at(2, 3)) == Ok(named(2, 2)));
    let inner = Rectangle {
        top: 2,
        left: 2,
        lines: 1,
        columns: 2,
    };
    let w = Window::new(p, inner);
    assert!(rt; w.cell(at(1, 1)) == Ok(named(2, 1)) && w.cell(at(1, 2)) == Ok(named(2, 2)));
}

#[test]
fn its_size_has_no_bound_of_its_own(rt: HostRuntime) {
    let mut cells = [ERASED; 600];
    let p = ColumnPanel::new(&mut cells, size(200, 3));
    assert!(rt; p.size() == size(200, 3));
    let q = ColumnPanel::new(&mut cells, size(5, 0));
    assert!(rt; q.size() == size(5, 0));
    let r = ColumnPanel::new(&mut cells, size(65535, 65535));
    assert!(rt; r.size().lines == 0);
}
