// The reply that is owed.
ghost use Rattle.std.specs.Prelude.{length};
ghost use Rattle.panel.specs.Grids.{Grid};
ghost use Rattle.page.specs.Plain.{plain};
ghost use Rattle.picture.specs.Views.{state_seen, report_bytes, Replies};
ghost use Rattle.picture.specs.Calls.{Does, replies};

use crate::front::{Written, write_front};
use crate::out::Out;
use control::function::Report;
use page::page::Page;
use page::view::View;
use panel::Position;
use refusal::Refusal;

// A reply by its report, and the position that one of them tells.
#[derive(Clone, Copy)]
pub struct Response {
    report: Report,
    at: Position,
}

impl Written for Response {
    ghost bytes = { λ r. report_bytes r.report r.at.line r.at.column };

    fn put(&self, out: &mut Out) {
        match self.report {
            Report::Status => out.put_sequence(&[Some(0)], false, b'n'),
            Report::Position => out.put_sequence(
                &[Some(self.at.line), Some(self.at.column)],
                false,
                b'R',
            ),
        }
    }
}

fn write_reply(view: &View, buffer: &mut [u8]) -> Result<usize, Refusal>
    ensures { Replies (state_seen view.now) result buffer.old buffer.new }
{
    let report = view.owed.ok_or(Refusal::NothingOwed)?;
    let response = Response {
        report,
        at: view.position,
    };
    write_front(&response, buffer)
}

// Writes the reply that is owed, whatever panel the page is on; then nothing is owed.
pub fn reply(page: &mut Page, buffer: &mut [u8]) -> Result<usize, Refusal>
    ensures { (g : Grid) → Does (replies (length buffer.old) (plain page.old g)) result (plain page.new g) buffer.old buffer.new }
{
    let view = page.view().ok_or(Refusal::OtherPanel)?;
    let length = write_reply(&view, buffer)?;
    page.settle();
    Ok(length)
}
