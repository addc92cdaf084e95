// Calls that are refused, shown with the refusal.
use crate::call::Failure;
use crate::console::Console;
use panel::Panel;
use picture::{picture, reply, write_control};
use refusal::Refusal;

pub(crate) fn print(rt: &HostRuntime, refusal: Refusal) -> Result<(), Failure> {
    println!(rt; "refused {refusal}")?;
    Ok(())
}

fn print_answer(rt: &HostRuntime, answer: Result<usize, Refusal>) -> Result<(), Failure> {
    match answer {
        Ok(length) => {
            println!(rt; "length {length}")?;
            Ok(())
        }
        Err(refusal) => print(rt, refusal),
    }
}

// Of a page whose reader is in the middle of something, and that owes nothing.
pub(crate) fn show_unfinished<P: Panel>(
    rt: &HostRuntime,
    console: &mut Console<P>,
) -> Result<(), Failure> {
    let mut buffer = [0; 64];
    print!(rt; "A picture in the middle of a sequence: ")?;
    print_answer(rt, picture(&console.page, &console.panel, &mut buffer))?;
    print!(rt; "A reply that nobody asked for: ")?;
    print_answer(rt, reply(&mut console.page, &mut buffer))?;
    print!(rt; "ESC alone, written: ")?;
    print_answer(rt, write_control(0x1B, &mut buffer))
}
