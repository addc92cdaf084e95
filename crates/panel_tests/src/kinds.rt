// The list panel and the module panel: layouts, sizes and memory.
use crate::{at, outside, reads, size, write};
use panel::{Cell, ERASED, ListPanel, ModulePanel, Panel, clear_bytes, clear_cells};
use std::process::Abort;

const MARK: Cell = Cell {
    code: 42,
    rendition: 515,
};

#[test]
fn a_cell_has_a_byte_in_each_plane(rt: HostRuntime) {
    let mut bytes = [0u8; 20];
    {
        let mut p = ModulePanel::new(&mut bytes, size(3, 2));
        assert!(rt; p.set(at(2, 1), MARK).is_ok());
        assert!(rt; p.set(at(4, 1), MARK) == outside(4, 1));
    }
    let wanted: [u8; 20] = [0, 0, 0, 0, 42, 0, 0, 0, 0, 0, 3, 0, 0, 0, 0, 0, 2, 0, 0, 0];
    let got: &[u8] = &bytes;
    let stored: &[u8] = &wanted;
    assert!(rt; got == stored);
}

#[test]
fn odd_lines_come_first(rt: HostRuntime) {
    let mut three = [7u8; 19];
    {
        let mut p = ModulePanel::new(&mut three, size(3, 2));
        write(&mut p, b"ABCDEF");
        assert!(rt; reads(&p, b"ABCDEF"));
    }
    let got: &[u8] = &three;
    assert!(rt; got == b"ABEFCD\0\0\0\0\0\0\0\0\0\0\0\0\x07".as_slice());
    let mut four = [7u8; 25];
    {
        let mut p = ModulePanel::new(&mut four, size(4, 2));
        write(&mut p, b"ABCDEFGH");
        assert!(rt; reads(&p, b"ABCDEFGH"));
    }
    let got: &[u8] = &four;
    assert!(rt; got == b"ABEFCDGH\0\0\0\0\0\0\0\0\0\0\0\0\0\0\0\0\x07".as_slice());
}

#[test]
fn lists_go_line_by_line(rt: HostRuntime) {
    let mut cells = [ERASED; 7];
    {
        let mut p = ListPanel::new(&mut cells, size(2, 3));
        assert!(rt; p.set(at(2, 1), MARK).is_ok());
        assert!(rt; p.set(at(2, 4), MARK) == outside(2, 4));
        assert!(rt; p.set(at(0, 65535), MARK) == outside(0, 65535));
    }
    assert!(rt; cells[3] == MARK);
    assert!(rt; cells[2].code == 0 && cells[4].code == 0 && cells[6].code == 0);
}

#[test]
fn sizes_have_bounds(rt: HostRuntime) {
    let mut cells = [ERASED; 8580];
    assert!(rt; ListPanel::new(&mut cells, size(64, 132)).size() == size(64, 132));
    assert!(rt; ListPanel::new(&mut cells, size(65, 132)).size() == size(0, 0));
    assert!(rt; ListPanel::new(&mut cells, size(64, 133)).size() == size(0, 0));
    assert!(rt; ListPanel::new(&mut cells, size(0, 5)).size() == size(0, 0));
    assert!(rt; ListPanel::new(&mut cells, size(65535, 65535)).size() == size(0, 0));
    let mut bytes = [0u8; 25740];
    assert!(rt; ModulePanel::new(&mut bytes, size(64, 132)).size() == size(64, 132));
    assert!(rt; ModulePanel::new(&mut bytes, size(65, 132)).size() == size(0, 0));
    assert!(rt; ModulePanel::new(&mut bytes, size(64, 133)).size() == size(0, 0));
    assert!(rt; ModulePanel::new(&mut bytes, size(5, 0)).size() == size(0, 0));
}

#[test]
fn exactly_enough_memory_is_enough(rt: HostRuntime) {
    let mut ten = [ERASED; 10];
    let mut nine = [ERASED; 9];
    assert!(rt; ListPanel::new(&mut ten, size(2, 5)).size() == size(2, 5));
    let mut p = ListPanel::new(&mut nine, size(2, 5));
    assert!(rt; p.size() == size(0, 0));
    assert!(rt; p.erase(at(1, 1), 0) == outside(1, 1));
    let mut thirty = [0u8; 30];
    let mut short = [0u8; 29];
    assert!(rt; ModulePanel::new(&mut thirty, size(2, 5)).size() == size(2, 5));
    assert!(rt; ModulePanel::new(&mut short, size(2, 5)).size() == size(0, 0));
}

fn runs<P: Panel>(rt: &impl Abort, p: &mut P) {
    write(p, b"ABCDEFGHIJ");
    assert!(rt; p.erase(at(2, 5), 0).is_ok());
    assert!(rt; p.erase(at(3, 1), 0) == outside(3, 1));
    assert!(rt; p.erase(at(0, 1), 0) == outside(0, 1));
    assert!(rt; p.erase(at(2, 4), 3) == outside(2, 4));
    assert!(rt; p.erase(at(1, 1), 18446744073709551615) == outside(1, 1));
    assert!(rt; reads(p, b"ABCDEFGHIJ"));
    assert!(rt; p.erase(at(1, 4), 4).is_ok());
    assert!(rt; reads(p, b"ABC....HIJ"));
    assert!(rt; p.erase(at(2, 4), 2).is_ok());
    assert!(rt; reads(p, b"ABC....H.."));
}

#[test]
fn runs_go_on_over_line_ends(rt: HostRuntime) {
    let mut cells = [ERASED; 10];
    runs(&rt, &mut ListPanel::new(&mut cells, size(2, 5)));
    let mut bytes = [0u8; 30];
    runs(&rt, &mut ModulePanel::new(&mut bytes, size(2, 5)));
}

#[test]
fn clearing_leaves_what_lies_past(rt: HostRuntime) {
    let mut cells = [MARK; 6];
    clear_cells(&mut cells, size(3, 3));
    assert!(rt; cells[0].code == 42);
    clear_cells(&mut cells, size(1, 5));
    assert!(rt; cells[0].code == 0 && cells[4].rendition == 0 && cells[5].code == 42);
    let mut bytes = [9u8; 7];
    clear_bytes(&mut bytes, size(2, 1));
    let got: &[u8] = &bytes;
    assert!(rt; got == b"\0\0\0\0\0\0\x09".as_slice());
}
