// Stops, on a page of 4 lines and 20 columns.
use crate::kinds::{check_all, size};
use std::test::Fail;

const NO_CELLS: &str =
    "....................|....................|....................|....................";

// What the page holds beside its cells, which stay erased but for those of the last rows.
const ROWS: [(&[u8], &str); 23] = [
    (b"", "1;1 stops 9 17"),
    (b"\t", "1;9 stops 9 17"),
    (b"\t\t", "1;17 stops 9 17"),
    (b"\t\t\t\t", "1;20 stops 9 17"),
    (b"\x1b[2I", "1;17 stops 9 17"),
    (b"\x1b[3I", "1;20 stops 9 17"),
    (b"\x1b[17G\x1b[Z", "1;9 stops 9 17"),
    (b"\x1b[18G\x1b[Z", "1;17 stops 9 17"),
    (b"\x1b[17G\x1b[3Z", "1;1 stops 9 17"),
    (b"\x1b[5G\x88", "1;5 stops 5 9 17"),
    (b"\x1b[5G\x1bH\x88\r\t", "1;5 stops 5 9 17"),
    (b"\t\x1b[g", "1;9 stops 17"),
    (b"\x1b[g\x1b[1g", "1;1 stops 9 17"),
    (b"\x1b[;g", "1;1 stops 9 17"),
    (b"\x1b[2g", "1;1"),
    (b"\x1b[3g", "1;1"),
    (b"\x0b", "4;1 stops 9 17"),
    (
        b"\x1b[2d\x8a\x1b[3d\x1bJ\x1b[H\x1b[Y",
        "2;1 stops 9 17 line stops 2 3",
    ),
    (
        b"\x1b[2d\x8a\x1b[3d\x8a\x1b[H\x1b[2Y",
        "3;1 stops 9 17 line stops 2 3",
    ),
    (b"\x1b[2d\x8a\x0b\x0b", "4;1 stops 9 17 line stops 2"),
    (b"\x1b[2d\x8a\x1b[1g", "2;1 stops 9 17"),
    (b"\x1b[2d\x8a\x1b[4g", "2;1 stops 9 17"),
    (
        b"\x1b[2d\x8a\x1b[5g\x1b[4;21h\x1b[1m\x1bc",
        "1;1 stops 9 17",
    ),
];

#[test]
fn stops(rt: HostRuntime) -> Result<(), Fail> {
    for (bytes, state) in ROWS {
        let text = format!(in rt.alloc(); "{NO_CELLS} {state}")?;
        check_all(&rt, rt.alloc(), size(4, 20), b"", &[(bytes, &text)])?;
    }
    Ok(())
}

// The first stops reach the edge, and not past it.
#[test]
fn first_stops(rt: HostRuntime) -> Result<(), Fail> {
    check_all(
        &rt,
        rt.alloc(),
        size(1, 9),
        b"",
        &[(b"\t", "......... 1;9 stops 9")],
    )?;
    check_all(&rt, rt.alloc(), size(1, 8), b"", &[(b"\t", "........ 1;8")])?;
    check_all(
        &rt,
        rt.alloc(),
        size(4, 5),
        b"",
        &[(b"A\x0b", "A....|.....|.....|..... 4;2")],
    )
}
