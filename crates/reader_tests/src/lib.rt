// Stored examples of the reader.

#![tactic(auto)]

#[cfg(test)]
mod tests {
    use reader::function::{Completed, Function};
    use reader::item::{ControlString, Item, Items, Kind};
    use reader::reader::Reader;
    use reader::standing::Standing;
    use std::process::Abort;
    use std::test::Fail;

    fn letter(kind: Kind) -> u8 {
        match kind {
            Kind::Text => b'T',
            Kind::Control => b'C',
            Kind::Escape => b'E',
            Kind::Sequence => b'S',
            Kind::String => b'G',
            Kind::Broken => b'B',
            Kind::Rest => b'R',
        }
    }

    // The ruler has a mark for each byte: the letter of its item's kind, and a small one behind the item's first byte.
    fn check_ruler(rt: &impl Abort, bytes: &[u8], ruler: &[u8]) -> Result<(), Fail> {
        let mut items = Items::new(bytes);
        let mut mark = 0;
        let mut left = 0;
        for (place, expected) in ruler.iter().enumerate() {
            if left == 0 {
                let item = items.next().ok_or("the items end early")?;
                assert_eq!(rt; item.place, place);
                mark = letter(item.kind);
                left = item.bytes.len();
            } else {
                mark = mark.to_ascii_lowercase();
            }
            assert_eq!(rt; mark, *expected);
            left = left.saturating_sub(1);
        }
        assert_eq!(rt; left, 0);
        assert!(rt; items.next().is_none());
        Ok(())
    }

    #[test]
    fn items_are_cut(rt: HostRuntime) -> Result<(), Fail> {
        let rows: [(&[u8], &[u8]); 31] = [
            (b"", b""),
            (b"AB\x1b[3;7H\n\x1b[2", b"TtSsssssCRrr"),
            (b"\x07\x7f\x85\x1bM\x1b(B", b"CCCEeEee"),
            // an escape cut by a C0 control, by ESC, by 7F and by A0
            (b"\x1b(\n", b"BbC"),
            (b"\x1b\x1bc", b"BEe"),
            (b"\x1b\x7f", b"BC"),
            (b"\x1b\xa0", b"BT"),
            // a sequence cut by the same, by CSI, and by a parameter byte after an intermediate
            (b"\x1b[3\n", b"BbbC"),
            (b"\x9b3\x1bM", b"BbEe"),
            (b"\x1b[3\x7f", b"BbbC"),
            (b"\x1b[3\xa0", b"BbbT"),
            (b"\x1b[3\x9bH", b"BbbSs"),
            (b"\x1b[ 3A", b"BbbTt"),
            // a command string cut by BEL, by ESC M, by A0 and by another opener
            (b"\x1b]0\x07", b"BbbC"),
            (b"\x90q\x1bM", b"BbEe"),
            (b"\x9da\xa0", b"BbT"),
            (b"\x9ea\x9fb", b"BbRr"),
            (b"\x9fA\x1b\x1b", b"BbBR"),
            // an SOS string cut by SOS, in both forms
            (b"\x98a\x98b\x9c", b"BbGgg"),
            (b"\x1bXa\x1bXb\x1b\\", b"BbbGgggg"),
            // whole strings
            (b"\x90ab\r\n\x9cA", b"GgggggT"),
            (b"\x1b]ab\x1b\\A", b"GgggggT"),
            (b"\x98\x07\x1b[\x1b\x9cA", b"GgggggT"),
            // what is unfinished
            (b"A\x1b", b"TR"),
            (b"A\x1b(", b"TRr"),
            (b"A\x1b[5;", b"TRrrr"),
            (b"A\x1b[1;2 ", b"TRrrrrr"),
            (b"A\x90a", b"TRr"),
            (b"A\x90a\x1b", b"TRrr"),
            (b"A\x98a\x1b", b"TRrr"),
            (b"A\x9b", b"TR"),
        ];
        for (bytes, ruler) in rows {
            check_ruler(&rt, bytes, ruler)?;
        }
        Ok(())
    }

    type Told = Option<(&'static [Option<u16>], bool, u8)>;

    fn check_sequence(
        rt: &impl Abort,
        kind: Kind,
        bytes: &[u8],
        expected: Told,
    ) -> Result<(), Fail> {
        let item = Item {
            kind,
            place: 0,
            bytes,
        };
        match (item.sequence(), expected) {
            (Some(sequence), Some((parameters, space, final_byte))) => {
                assert_eq!(rt; sequence.parameters.listed(), parameters);
                assert_eq!(rt; sequence.space, space);
                assert_eq!(rt; sequence.final_byte, final_byte);
                Ok(())
            }
            (None, None) => Ok(()),
            _ => Err(Fail::new("a sequence is told or not")),
        }
    }

    #[test]
    fn sequences_are_told(rt: HostRuntime) -> Result<(), Fail> {
        let rows: [(&[u8], Told); 25] = [
            (b"\x1b[H", Some((&[], false, b'H'))),
            (b"\x9bH", Some((&[], false, b'H'))),
            (b"\x1b[3;7H", Some((&[Some(3), Some(7)], false, b'H'))),
            (b"\x1b[;H", Some((&[None, None], false, b'H'))),
            (b"\x1b[5;H", Some((&[Some(5), None], false, b'H'))),
            (b"\x1b[;5H", Some((&[None, Some(5)], false, b'H'))),
            (b"\x1b[0m", Some((&[Some(0)], false, b'm'))),
            (b"\x1b[9999H", Some((&[Some(9999)], false, b'H'))),
            (b"\x1b[10000H", Some((&[Some(9999)], false, b'H'))),
            (
                b"\x1b[12345678901234567890H",
                Some((&[Some(9999)], false, b'H')),
            ),
            (
                b"\x1b[00000000000000000012H",
                Some((&[Some(12)], false, b'H')),
            ),
            // 16 parameters, and 17
            (
                b"\x1b[1;1;1;1;1;1;1;1;1;1;1;1;1;1;1;1m",
                Some((&[Some(1); 16], false, b'm')),
            ),
            (b"\x1b[1;1;1;1;1;1;1;1;1;1;1;1;1;1;1;1;1m", None),
            // bytes that no function has
            (b"\x1b[3:7m", None),
            (b"\x1b[<1m", None),
            (b"\x1b[=1m", None),
            (b"\x1b[>1m", None),
            (b"\x1b[?1h", None),
            // one space, another intermediate, and two
            (b"\x1b[1 q", Some((&[Some(1)], true, b'q'))),
            (b"\x1b[1!p", None),
            (b"\x1b[1  q", None),
            (b"\x1b[1! q", None),
            // bytes that are no sequence, and two
            (b"", None),
            (b"A", None),
            (b"\x1b[H\x1b[H", None),
        ];
        for (bytes, expected) in rows {
            check_sequence(&rt, Kind::Sequence, bytes, expected)?;
        }
        check_sequence(&rt, Kind::Text, b"\x1b[H", None)?;
        check_sequence(&rt, Kind::Broken, b"\x1b[H", None)
    }

    fn check_string(rt: &impl Abort, kind: Kind, bytes: &[u8], expected: Option<(u8, &[u8])>) {
        let item = Item {
            kind,
            place: 0,
            bytes,
        };
        let expected = expected.map(|(opener, body)| ControlString { opener, body });
        assert_eq!(rt; item.string(), expected);
    }

    #[test]
    fn strings_are_told(rt: HostRuntime) {
        let rows: [(&[u8], Option<(u8, &[u8])>); 16] = [
            (b"\x90ab\x9c", Some((0x90, b"ab"))),
            (b"\x98ab\x9c", Some((0x98, b"ab"))),
            (b"\x9dab\x9c", Some((0x9D, b"ab"))),
            (b"\x9eab\x9c", Some((0x9E, b"ab"))),
            (b"\x9fab\x9c", Some((0x9F, b"ab"))),
            (b"\x1bPab\x1b\\", Some((0x90, b"ab"))),
            (b"\x1bXab\x1b\\", Some((0x98, b"ab"))),
            (b"\x1b]ab\x1b\\", Some((0x9D, b"ab"))),
            (b"\x1b^ab\x9c", Some((0x9E, b"ab"))),
            (b"\x9fab\x1b\\", Some((0x9F, b"ab"))),
            (b"\x90\x9c", Some((0x90, b""))),
            (b"\x98a\x1b\x9c", Some((0x98, b"a\x1b"))),
            // no opener, no ST
            (b"", None),
            (b"ab\x9c", None),
            (b"\x90ab\\", None),
            (b"\x90", None),
        ];
        for (bytes, expected) in rows {
            check_string(&rt, Kind::String, bytes, expected);
        }
        check_string(&rt, Kind::Broken, b"\x90ab\x9c", None);
    }

    fn mark_of_standing(standing: Standing) -> u8 {
        match standing {
            Standing::Rest => b'r',
            Standing::Escape {
                intermediates: false,
            } => b'e',
            Standing::Escape {
                intermediates: true,
            } => b'i',
            Standing::Sequence {
                parameters: Some(_),
            } => b's',
            Standing::Sequence { parameters: None } => b'n',
            Standing::Intermediates {
                parameters: Some(_),
            } => b'm',
            Standing::Intermediates { parameters: None } => b'o',
            Standing::CommandString => b'c',
            Standing::Sos { escape: false } => b'x',
            Standing::Sos { escape: true } => b'y',
        }
    }

    fn mark_of_function(completed: Completed) -> u8 {
        match completed.function {
            None => b'.',
            Some(Function::Graphic(_)) => b'g',
            Some(Function::Control(_)) => b'c',
            Some(Function::Reset) => b'!',
            Some(Function::Sequence(_)) => b's',
        }
    }

    // After the bytes, each of the others alone leads to these standings and completes these functions.
    fn check_steps(
        rt: &impl Abort,
        bytes: &[u8],
        standing: u8,
        others: &[u8],
        standings: &[u8],
        functions: &[u8],
    ) {
        assert_eq!(rt; standings.len(), others.len());
        assert_eq!(rt; functions.len(), others.len());
        let mut reader = Reader::new();
        let _ = reader.read(bytes);
        assert_eq!(rt; mark_of_standing(reader.standing()), standing);
        for ((byte, to), function) in others.iter().zip(standings.iter()).zip(functions.iter()) {
            let mut one = reader;
            assert_eq!(rt; mark_of_function(one.step(*byte)), *function);
            assert_eq!(rt; mark_of_standing(one.standing()), *to);
        }
    }

    // ESC, CSI, ST, SOS, 7F and A0 at every standing.
    #[test]
    fn standings_meet_bytes(rt: HostRuntime) {
        let bytes = b"\x1b\x9b\x9c\x98\x7f\xa0";
        let rows: [(&[u8], u8, &[u8], &[u8]); 10] = [
            (b"", b'r', b"esrxrr", b".....g"),
            (b"\x1b", b'e', b"esrxrr", b".....g"),
            (b"\x1b(", b'i', b"esrxrr", b".....g"),
            (b"\x1b[1", b's', b"esrxrr", b".....g"),
            (b"\x1b[:", b'n', b"esrxrr", b".....g"),
            (b"\x1b[1 ", b'm', b"esrxrr", b".....g"),
            (b"\x1b[1!", b'o', b"esrxrr", b".....g"),
            (b"\x90a", b'c', b"esrxrr", b".....g"),
            (b"\x98a", b'x', b"yxrxxx", b"......"),
            (b"\x98a\x1b", b'y', b"yxrxxx", b"......"),
        ];
        for (before, standing, standings, functions) in rows {
            check_steps(&rt, before, standing, bytes, standings, functions);
        }
        // finals of an escape, with and without intermediates; of a sequence; ST in an SOS string
        check_steps(&rt, b"\x1b", b'e', b"[PX\\Mc7", b"scxrrrr", b"....c!.");
        check_steps(&rt, b"\x1b(", b'i', b"[Pc7", b"rrrr", b"....");
        check_steps(&rt, b"\x1b[1", b's', b"H@~", b"rrr", b"sss");
        check_steps(&rt, b"\x98\x1b", b'y', b"\\Xc", b"rxx", b"...");
    }

    #[test]
    fn requests_end_a_delivery(rt: HostRuntime) {
        let rows: [(&[u8], &[u8], usize); 10] = [
            (b"", b"", 0),
            (b"", b"AB", 2),
            (b"", b"\x1b[5nA", 4),
            (b"", b"A\x9b6nA\x1b[5n", 4),
            (b"", b"\x1b[05nA", 5),
            (b"", b"\x1b[0nA", 5),
            (b"", b"\x1b[5;6nA", 7),
            (b"", b"\x1b[5 nA", 6),
            (b"\x1b[5", b"nA", 1),
            (b"\x98", b"\x1b[5nA", 5),
        ];
        for (before, bytes, end) in rows {
            let mut reader = Reader::new();
            let _ = reader.read(before);
            assert_eq!(rt; reader.until_request(bytes), end);
        }
    }

    // Cut at every place, the stream performs as many functions as in one piece, and leads to where that leads.
    #[test]
    fn pieces_read_as_the_whole(rt: HostRuntime) {
        let stream: &[u8] = b"A\x1b[3;7Hb\n\x1b]0;t\x1b\\\x98x\x1b\x9c\x1bc\x9b1 q\x85\x1b[2";
        let mut whole = Reader::new();
        let functions = whole.read(stream);
        assert_eq!(rt; functions, 7);
        for cut in 0..stream.len() {
            let (front, back) = stream.split_at(cut);
            let mut reader = Reader::new();
            let first = reader.read(front);
            let second = reader.read(back);
            assert_eq!(rt; first.wrapping_add(second), functions);
            assert_eq!(rt; reader, whole);
        }
    }
}
