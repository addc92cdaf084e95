// The shift, in each direction, by none, by some and by all.
use crate::{outside, reads, rectangle, size, write};
use panel::{Direction, ERASED, ListPanel, ModulePanel, Panel, Rectangle, Window, clear, shift};
use std::process::Abort;

struct Case {
    part: Rectangle,
    direction: Direction,
    count: u16,
    after: &'static [u8; 15],
}

const ALL: Rectangle = Rectangle {
    top: 1,
    left: 1,
    lines: 3,
    columns: 5,
};

const MIDDLE: Rectangle = Rectangle {
    top: 2,
    left: 2,
    lines: 2,
    columns: 3,
};

const CASES: [Case; 14] = [
    Case {
        part: ALL,
        direction: Direction::Up,
        count: 0,
        after: b"ABCDEFGHIJKLMNO",
    },
    Case {
        part: ALL,
        direction: Direction::Up,
        count: 1,
        after: b"FGHIJKLMNO.....",
    },
    Case {
        part: ALL,
        direction: Direction::Up,
        count: 3,
        after: b"...............",
    },
    Case {
        part: ALL,
        direction: Direction::Down,
        count: 1,
        after: b".....ABCDEFGHIJ",
    },
    Case {
        part: ALL,
        direction: Direction::Down,
        count: 65535,
        after: b"...............",
    },
    Case {
        part: ALL,
        direction: Direction::Left,
        count: 2,
        after: b"CDE..HIJ..MNO..",
    },
    Case {
        part: ALL,
        direction: Direction::Right,
        count: 2,
        after: b"..ABC..FGH..KLM",
    },
    Case {
        part: ALL,
        direction: Direction::Right,
        count: 5,
        after: b"...............",
    },
    Case {
        part: MIDDLE,
        direction: Direction::Up,
        count: 1,
        after: b"ABCDEFLMNJK...O",
    },
    Case {
        part: MIDDLE,
        direction: Direction::Down,
        count: 1,
        after: b"ABCDEF...JKGHIO",
    },
    Case {
        part: MIDDLE,
        direction: Direction::Left,
        count: 1,
        after: b"ABCDEFHI.JKMN.O",
    },
    Case {
        part: MIDDLE,
        direction: Direction::Right,
        count: 1,
        after: b"ABCDEF.GHJK.LMO",
    },
    Case {
        part: MIDDLE,
        direction: Direction::Left,
        count: 0,
        after: b"ABCDEFGHIJKLMNO",
    },
    Case {
        part: MIDDLE,
        direction: Direction::Down,
        count: 2,
        after: b"ABCDEF...JK...O",
    },
];

fn all_cases<P: Panel>(rt: &impl Abort, p: &mut P) {
    for case in CASES.iter() {
        write(p, b"ABCDEFGHIJKLMNO");
        assert!(rt; shift(p, case.part, case.direction, case.count).is_ok());
        let after = case.after;
        assert!(rt; reads(p, after));
    }
    write(p, b"ABCDEFGHIJKLMNO");
    assert!(rt; shift(p, rectangle(2, 2, 3, 3), Direction::Up, 1) == outside(2, 2));
    assert!(rt; shift(p, rectangle(0, 9, 1, 1), Direction::Left, 0) == outside(0, 9));
    assert!(rt; reads(p, b"ABCDEFGHIJKLMNO"));
    clear(p);
    assert!(rt; reads(p, b"..............."));
}

#[test]
fn rectangles_are_shifted(rt: HostRuntime) {
    let mut cells = [ERASED; 15];
    all_cases(&rt, &mut ListPanel::new(&mut cells, size(3, 5)));
    let mut bytes = [0u8; 45];
    all_cases(&rt, &mut ModulePanel::new(&mut bytes, size(3, 5)));
    let mut more = [ERASED; 28];
    all_cases(
        &rt,
        &mut Window::new(ListPanel::new(&mut more, size(4, 7)), rectangle(2, 3, 3, 5)),
    );
}
