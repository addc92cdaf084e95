// Nine cases on a page of 2 lines and 5 columns, each a point where terminals differ.
use crate::kinds::{check_all, size};
use std::test::Fail;

const CASES: [(&[u8], &str); 9] = [
    // a character at the edge replaces
    (b"ABCDEF", "ABCDF|..... 1;5"),
    // zero is one
    (b"\x1b[0;0H", ".....|..... 1;1"),
    // a line feed keeps its column, and the page scrolls
    (b"A\n\n", ".....|..... 2;2"),
    // inserted characters, then the first column
    (b"ABCDE\x1b[1;2H\x1b[2@", "A..BC|..... 1;1"),
    // renditions replace
    (b"\x1b[1m\x1b[4mA", "A{6}....|..... 1;2 rendition 6"),
    // or combine
    (
        b"\x1b[21h\x1b[1m\x1b[4mA",
        "A{7}....|..... 1;2 rendition 7 combination",
    ),
    // a request for a reply ends a delivery
    (b"\x1b[6nA", "4 taken: .....|..... 1;1 owes position"),
    // a control breaks a sequence, and acts
    (b"\x1b[\nA", ".....|A.... 2;2"),
    (b"A\x1b[1mB", "AB{1}...|..... 1;3 rendition 1"),
];

#[test]
fn marked_cases(rt: HostRuntime) -> Result<(), Fail> {
    check_all(&rt, rt.alloc(), size(2, 5), b"", &CASES)
}
