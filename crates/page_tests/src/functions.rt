// Every control function on a page of 3 lines and 5 columns that is full, at line 2, column 3.
use crate::kinds::{check_all, size};
use std::test::Fail;

const FULL: &[u8] = b"ABCDE\r\nFGHIJ\r\nKLMNO\x1b[2;3H";

// Characters, and moves of the active position.
const MOVES: [(&[u8], &str); 30] = [
    (b"", "ABCDE|FGHIJ|KLMNO 2;3"),
    (b"X", "ABCDE|FGXIJ|KLMNO 2;4"),
    (b"XYZW", "ABCDE|FGXYW|KLMNO 2;5"),
    (b"\x1b[4hX", "ABCDE|FGXHI|KLMNO 2;4 insertion"),
    (b"\x1b[5G\x1b[4hXY", "ABCDE|FGHIY|KLMNO 2;5 insertion"),
    (b"\x1b[A", "ABCDE|FGHIJ|KLMNO 1;3"),
    (b"\x1b[9k", "ABCDE|FGHIJ|KLMNO 1;3"),
    (b"\x1b[0B", "ABCDE|FGHIJ|KLMNO 3;3"),
    (b"\x1b[9e", "ABCDE|FGHIJ|KLMNO 3;3"),
    (b"\x1b[C", "ABCDE|FGHIJ|KLMNO 2;4"),
    (b"\x1b[10000a", "ABCDE|FGHIJ|KLMNO 2;5"),
    (b"\x1b[D", "ABCDE|FGHIJ|KLMNO 2;2"),
    (b"\x1b[9j", "ABCDE|FGHIJ|KLMNO 2;1"),
    (b"\x1b[5G", "ABCDE|FGHIJ|KLMNO 2;5"),
    (b"\x1b[0`", "ABCDE|FGHIJ|KLMNO 2;1"),
    (b"\x1b[3d", "ABCDE|FGHIJ|KLMNO 3;3"),
    (b"\x1b[;4H", "ABCDE|FGHIJ|KLMNO 1;4"),
    (b"\x1b[3f", "ABCDE|FGHIJ|KLMNO 3;1"),
    (b"\x9b99;99H", "ABCDE|FGHIJ|KLMNO 3;5"),
    (b"\x08", "ABCDE|FGHIJ|KLMNO 2;2"),
    (b"\x08\x08\x08\x08", "ABCDE|FGHIJ|KLMNO 2;1"),
    (b"\t", "ABCDE|FGHIJ|KLMNO 2;5"),
    (b"\x0b", "ABCDE|FGHIJ|KLMNO 3;3"),
    (b"\r", "ABCDE|FGHIJ|KLMNO 2;1"),
    (b"\n", "ABCDE|FGHIJ|KLMNO 3;3"),
    (b"\n\n", "FGHIJ|KLMNO|..... 3;3"),
    (b"\x8d", "ABCDE|FGHIJ|KLMNO 1;3"),
    (b"\x1bM\x1bM", ".....|ABCDE|FGHIJ 1;3"),
    (b"\x85", "ABCDE|FGHIJ|KLMNO 3;1"),
    (b"\x1bE\x1bE", "FGHIJ|KLMNO|..... 3;1"),
];

// Erasures, and movements of cells.
const CHANGES: [(&[u8], &str); 27] = [
    (b"\x1b[J", "ABCDE|FG...|..... 2;3"),
    (b"\x1b[1J", ".....|...IJ|KLMNO 2;3"),
    (b"\x1b[2J", ".....|.....|..... 2;3"),
    (b"\x1b[K", "ABCDE|FG...|KLMNO 2;3"),
    (b"\x1b[1K", "ABCDE|...IJ|KLMNO 2;3"),
    (b"\x1b[2K", "ABCDE|.....|KLMNO 2;3"),
    (b"\x1b[2X", "ABCDE|FG..J|KLMNO 2;3"),
    (b"\x1b[99X", "ABCDE|FG...|KLMNO 2;3"),
    (b"\x1b[@", "ABCDE|FG.HI|KLMNO 2;1"),
    (b"\x1b[99@", "ABCDE|FG...|KLMNO 2;1"),
    (b"\x1b[P", "ABCDE|FGIJ.|KLMNO 2;3"),
    (b"\x1b[2P", "ABCDE|FGJ..|KLMNO 2;3"),
    (b"\x1b[99P", "ABCDE|FG...|KLMNO 2;3"),
    (b"\x1b[L", "ABCDE|.....|FGHIJ 2;1"),
    (b"\x1b[1;3H\x1b[L", ".....|ABCDE|FGHIJ 1;1"),
    (b"\x1b[2L", "ABCDE|.....|..... 2;1"),
    (b"\x1b[M", "ABCDE|KLMNO|..... 2;1"),
    (b"\x1b[9M", "ABCDE|.....|..... 2;1"),
    (b"\x1b[S", "FGHIJ|KLMNO|..... 2;3"),
    (b"\x1b[9S", ".....|.....|..... 2;3"),
    (b"\x1b[T", ".....|ABCDE|FGHIJ 2;3"),
    (b"\x1b[2T", ".....|.....|ABCDE 2;3"),
    (b"\x1b[2 @", "CDE..|HIJ..|MNO.. 2;3"),
    (b"\x1b[9 @", ".....|.....|..... 2;3"),
    (b"\x1b[ A", ".ABCD|.FGHI|.KLMN 2;3"),
    (b"\x1b[7mX\x1b[m\x1b[H\x1b[M", "FGX{54}IJ|KLMNO|..... 1;1"),
    (b"\x1bc", ".....|.....|..... 1;1"),
];

// Modes and requests, and what has no effect.
const OTHERS: [(&[u8], &str); 22] = [
    (b"\x1b[4;21h", "ABCDE|FGHIJ|KLMNO 2;3 insertion combination"),
    (
        b"\x1b[21;99;4h\x1b[4;4l",
        "ABCDE|FGHIJ|KLMNO 2;3 combination",
    ),
    (b"\x1b[h\x1b[20h", "ABCDE|FGHIJ|KLMNO 2;3"),
    (b"\x1b[5nX", "4 taken: ABCDE|FGHIJ|KLMNO 2;3 owes status"),
    (b"\x9b6n", "ABCDE|FGHIJ|KLMNO 2;3 owes position"),
    (b"\x1b[5;6nX", "ABCDE|FGXIJ|KLMNO 2;4"),
    (b"\x1b[n\x1b[0n\x1b[1;1R", "ABCDE|FGHIJ|KLMNO 2;3"),
    (
        b"\x00\x05\x07\x0c\x0e\x0f\x18\x1a\x7f\x84\x8e\x9c",
        "ABCDE|FGHIJ|KLMNO 2;3",
    ),
    (b"\x1b[3J\x1b[3K\x1b[6g", "ABCDE|FGHIJ|KLMNO 2;3"),
    (b"\x1b[1;A", "ABCDE|FGHIJ|KLMNO 2;3"),
    (b"\x1b[1;2J", "ABCDE|FGHIJ|KLMNO 2;3"),
    (b"\x1b[1;2;H", "ABCDE|FGHIJ|KLMNO 2;3"),
    (b"\x1b[ J\x1b[ T\x1b[2 B", "ABCDE|FGHIJ|KLMNO 2;3"),
    (
        b"\x1b[^\x1b[E\x1b[F\x1b[W\x1b[b\x1b[c",
        "ABCDE|FGHIJ|KLMNO 2;3",
    ),
    (b"\x1b[?2J\x1b[2 !J", "ABCDE|FGHIJ|KLMNO 2;3"),
    (
        b"\x1b]0;T\x1b\\\x1b_F\x9c\x98\x1bc\x9c",
        "ABCDE|FGHIJ|KLMNO 2;3",
    ),
    (b"\x1b[\x0e2C", "ABCDE|FG2CJ|KLMNO 2;5"),
    (b"\x1b[ 3A", "ABCDE|FG3AJ|KLMNO 2;5"),
    (b"\x1b[1\x7f;2H", "ABCDE|FG;2H|KLMNO 2;5"),
    (b"\x1b\x1b[2D", "ABCDE|FGHIJ|KLMNO 2;1"),
    (b"\x1b[2", "ABCDE|FGHIJ|KLMNO 2;3 midway"),
    (b"\x1b[2\x1bc", ".....|.....|..... 1;1"),
];

#[test]
fn moves(rt: HostRuntime) -> Result<(), Fail> {
    check_all(&rt, rt.alloc(), size(3, 5), FULL, &MOVES)
}

#[test]
fn changes(rt: HostRuntime) -> Result<(), Fail> {
    check_all(&rt, rt.alloc(), size(3, 5), FULL, &CHANGES)
}

#[test]
fn others(rt: HostRuntime) -> Result<(), Fail> {
    check_all(&rt, rt.alloc(), size(3, 5), FULL, &OTHERS)
}
