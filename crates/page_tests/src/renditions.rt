// SGR, with and without combination.
use crate::kinds::{check_all, size};
use std::test::Fail;

// Each from the default rendition, replacing.
const REPLACING: [(&[u8], &str); 24] = [
    (b"\x1b[1m", ". 1;1 rendition 1"),
    (b"\x1b[2m", ". 1;1 rendition 2"),
    (b"\x1b[3m", ". 1;1 rendition 3"),
    (b"\x1b[4m", ". 1;1 rendition 6"),
    (b"\x1b[21m", ". 1;1 rendition 12"),
    (b"\x1b[5m", ". 1;1 rendition 18"),
    (b"\x1b[6m", ". 1;1 rendition 36"),
    (b"\x1b[7m", ". 1;1 rendition 54"),
    (b"\x1b[8m", ". 1;1 rendition 108"),
    (b"\x1b[9m", ". 1;1 rendition 216"),
    (b"\x1b[30m", ". 1;1 rendition 432"),
    (b"\x1b[37m", ". 1;1 rendition 3456"),
    (b"\x1b[40m", ". 1;1 rendition 3888"),
    (b"\x1b[47m", ". 1;1 rendition 31104"),
    (b"\x1b[2;3;21;6;7;8;9;37;47m", ". 1;1 rendition 34991"),
    (b"\x1b[4;21m", ". 1;1 rendition 12"),
    (b"\x1b[21;4m", ". 1;1 rendition 6"),
    (b"\x1b[1m\x1b[m", ". 1;1"),
    (b"\x1b[1;;4m", ". 1;1 rendition 6"),
    (b"\x1b[1m\x1b[99m", ". 1;1"),
    (b"\x1b[38;5;1m", ". 1;1 rendition 19"),
    (
        b"\x1b[1;1;1;1;1;1;1;1;1;1;1;1;1;1;1;1m",
        ". 1;1 rendition 1",
    ),
    (
        b"\x1b[7m\x1b[1;1;1;1;1;1;1;1;1;1;1;1;1;1;1;1;1m",
        ". 1;1 rendition 54",
    ),
    (b"\x1b[31mA", "A{864} 1;1 rendition 864"),
];

// Each from the last rendition of all, combining.
const ALL: &[u8] = b"\x1b[21h\x1b[2;3;21;6;7;8;9;37;47m";

const COMBINING: [(&[u8], &str); 13] = [
    (b"", ". 1;1 rendition 34991 combination"),
    (b"\x1b[99m", ". 1;1 rendition 34991 combination"),
    (b"\x1b[22m", ". 1;1 rendition 34989 combination"),
    (b"\x1b[23m", ". 1;1 rendition 34988 combination"),
    (b"\x1b[24m", ". 1;1 rendition 34979 combination"),
    (b"\x1b[25m", ". 1;1 rendition 34955 combination"),
    (b"\x1b[27m", ". 1;1 rendition 34937 combination"),
    (b"\x1b[28m", ". 1;1 rendition 34883 combination"),
    (b"\x1b[29m", ". 1;1 rendition 34775 combination"),
    (b"\x1b[39m", ". 1;1 rendition 31535 combination"),
    (b"\x1b[49m", ". 1;1 rendition 3887 combination"),
    (b"\x1b[22;23;24;25;27;28;29;39;49m", ". 1;1 combination"),
    (b"\x1b[m", ". 1;1 combination"),
];

#[test]
fn replacing(rt: HostRuntime) -> Result<(), Fail> {
    check_all(&rt, rt.alloc(), size(1, 1), b"", &REPLACING)
}

#[test]
fn combining(rt: HostRuntime) -> Result<(), Fail> {
    check_all(&rt, rt.alloc(), size(1, 1), ALL, &COMBINING)
}
