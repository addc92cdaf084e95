// Bytes that are delivered in parts show what they show at once, wherever they are cut.
use crate::kinds::{Kind, delivered, size};
use std::alloc::Global;
use std::process::Abort;
use std::test::Fail;

const STREAM: &[u8] =
    b"AB\x1b[1;4mC\x9b2;2HD\x1b]0;T\x1b\\E\x98x\x1b\x1b\\F\x1b[31mG\x1b[?7h\x1b[1 @\x1b[L\x1bMH\x1b[0012;34";

const SHOWN: &str = "H{864}C{7}...|..... 1;2 rendition 864 midway";

fn check_cut(
    rt: &impl Abort,
    heap: Global,
    kind: Kind,
    whole: &str,
    at: usize,
) -> Result<(), Fail> {
    if at <= STREAM.len() {
        let (front, back) = STREAM.split_at(at);
        let parts = delivered(heap, kind, size(2, 5), &[front, b"", back])?;
        assert_eq!(rt; parts.as_str(), whole);
    }
    Ok(())
}

#[test]
fn cut_at_every_byte(rt: HostRuntime) -> Result<(), Fail> {
    let heap = rt.alloc();
    for kind in [Kind::List, Kind::WindowOnModule] {
        let whole = delivered(heap, kind, size(2, 5), &[STREAM])?;
        assert_eq!(rt; whole.as_str(), SHOWN);
        for at in 0..STREAM.len() {
            check_cut(&rt, heap, kind, &whole, at)?;
        }
    }
    Ok(())
}

#[test]
fn byte_by_byte(rt: HostRuntime) -> Result<(), Fail> {
    let heap = rt.alloc();
    let bytes: Vec<&[u8]> = STREAM.chunks(1).collect(heap)?;
    let text = delivered(heap, Kind::Module, size(2, 5), &bytes)?;
    assert_eq!(rt; text.as_str(), SHOWN);
    Ok(())
}
