// The largest and the smallest: sizes of panels, and lengths of deliveries.
use crate::kinds::{Kind, check_all, delivered, size};
use std::alloc::Global;
use std::process::Abort;
use std::test::Fail;

fn check_start(
    rt: &impl Abort,
    heap: Global,
    lines: u16,
    columns: u16,
    accepted: bool,
) -> Result<(), Fail> {
    for kind in [Kind::List, Kind::Module] {
        let text = delivered(heap, kind, size(lines, columns), &[])?;
        if accepted {
            assert!(rt; text.as_str() != "refused 1 Size page 0");
        } else {
            assert_eq!(rt; text.as_str(), "refused 1 Size page 0");
        }
    }
    Ok(())
}

#[test]
fn sizes(rt: HostRuntime) -> Result<(), Fail> {
    let rows = [
        (1, 1, true),
        (64, 1, true),
        (1, 132, true),
        (64, 132, true),
        (65, 1, false),
        (65, 132, false),
        (1, 133, false),
        (64, 133, false),
        (0, 5, false),
        (5, 0, false),
        (0, 0, false),
        (65535, 65535, false),
    ];
    for (lines, columns, accepted) in rows {
        check_start(&rt, rt.alloc(), lines, columns, accepted)?;
    }
    Ok(())
}

#[test]
fn smallest_pages(rt: HostRuntime) -> Result<(), Fail> {
    let one = [
        (b"AB" as &[u8], "B 1;1"),
        (b"A\n", ". 1;1"),
        (b"A\x1bM", ". 1;1"),
        (b"A\x1b[4hB", "B 1;1 insertion"),
        (b"A\x1b[@", ". 1;1"),
        (b"A\x1b[P", ". 1;1"),
        (b"A\x1b[L", ". 1;1"),
        (b"A\x1b[ A", ". 1;1"),
        (b"A\t\x0b\x1b[9;9H\x1b[Z", "A 1;1"),
        (b"A\x1b[1K", ". 1;1"),
    ];
    check_all(&rt, rt.alloc(), size(1, 1), b"", &one)?;
    let column = [
        (b"" as &[u8], "A|B|C 3;1"),
        (b"\n", "B|C|. 3;1"),
        (b"\x1b[2dD", "A|D|C 2;1"),
        (b"\x1b[2d\x1b[L", "A|.|B 2;1"),
        (b"\x1b[H\x1b[T", ".|A|B 1;1"),
        (b"\x1b[2d\x1b[1J", ".|.|C 2;1"),
    ];
    check_all(&rt, rt.alloc(), size(3, 1), b"A\nB\nC", &column)
}

#[test]
fn lengths(rt: HostRuntime) -> Result<(), Fail> {
    let heap = rt.alloc();
    for kind in [Kind::List, Kind::Module] {
        let longest = vec![in heap; b'A'; 4096]?;
        let text = delivered(heap, kind, size(1, 3), &[&longest, b""])?;
        assert_eq!(rt; text.as_str(), "AAA 1;3");
        let longer = vec![in heap; b'A'; 4097]?;
        let text = delivered(heap, kind, size(1, 3), &[&longer])?;
        assert_eq!(rt; text.as_str(), "refused 3 Long page 0");
    }
    Ok(())
}

// The last cell of the largest page, and a shift of all of it.
#[test]
fn largest_page(rt: HostRuntime) -> Result<(), Fail> {
    let heap = rt.alloc();
    for kind in [Kind::List, Kind::Module] {
        let whole = delivered(
            heap,
            kind,
            size(64, 132),
            &[b"\x1b[3g\x1b[63;132HZ\x1b[H\x1b[T\x1b[64;132H"],
        )?;
        assert!(rt;
            whole.as_str().ends_with(
                "|...................................................................................................................................Z 64;132",
            )
        );
    }
    Ok(())
}
