// Bytes as a cable hands them over, and an account of them.
use crate::console::Console;
use panel::Panel;
use refusal::Refusal;

#[derive(Clone, Copy, Debug, Default)]
pub struct Account {
    pub taken: usize,
    // how often a reply was requested
    pub requests: usize,
}

// Delivers a piece. No reply is sent yet: one that is owed counts as sent when more bytes come, so that these go on.
pub(crate) fn send<P: Panel>(
    console: &mut Console<P>,
    account: &mut Account,
    piece: &[u8],
) -> Result<(), Refusal> {
    let mut rest = piece;
    // No piece needs more deliveries than it has bytes; a `while` would owe a proof that each takes one.
    for _ in piece {
        if rest.is_empty() {
            break;
        }
        console.page.settle();
        let taken = console.deliver(rest)?.min(rest.len());
        account.taken = account.taken.saturating_add(taken);
        if console.is_owing() {
            account.requests = account.requests.saturating_add(1);
        }
        rest = rest.split_at(taken).1;
    }
    Ok(())
}
