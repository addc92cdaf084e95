// The table of refusals, as it is printed.
use refusal::{Layer, Place, Refusal};
use std::test::Fail;

#[test]
fn refusals_are_printed(rt: HostRuntime) -> Result<(), Fail> {
    let table = [
        (Refusal::PanelSize, "1 Size page 0"),
        (Refusal::OtherPanel, "2 Stranger page 0"),
        (Refusal::TooLong, "3 Long page 0"),
        (Refusal::ReplyOwed, "4 Owing page 0"),
        (Refusal::NothingOwed, "5 Quits page 0"),
        (Refusal::Unfinished, "6 Midway page 0"),
        (
            Refusal::ForeignCell { line: 2, column: 3 },
            "7 Foreign page 2,3",
        ),
        (Refusal::ShortBuffer { needed: 36 }, "8 Short writer 36"),
        (Refusal::OutOfRange, "9 Misfit writer 0"),
        (
            Refusal::OutsidePanel {
                line: 0,
                column: 65535,
            },
            "10 Outside panel 0,65535",
        ),
    ];
    for (refusal, text) in table.iter() {
        let shown = format!(in rt.alloc(); "{refusal}")?;
        assert!(rt; shown.as_str() == *text);
    }
    assert!(rt; Refusal::OutOfRange.layer() == Layer::Writer);
    assert!(rt; Refusal::ShortBuffer { needed: 36 }.place() == Place::Length(36));
    Ok(())
}
