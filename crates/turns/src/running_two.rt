// Lists of turns on two pages, over any two kinds of panel.
ghost use Rattle.std.specs.Prelude.{map, MatchResult};
ghost use Rattle.page.specs.Plain.{on_panel};
ghost use Rattle.turns.specs.Running.{meant, Ran, SomeRan, Agree};
ghost use Rattle.turns.specs.Laws.{SameBytesSamePage};

use crate::running::run_turns;
use crate::turn::{Transcript, Turn};
use page::page::Page;
use panel::Panel;
use std::alloc::{AllocError, Global};

// Two lists of turns, each on its own page. Where the pages are equal, the turns take the same bytes
// and send equally many replies, the pages are equal afterwards and the replies are the same.
pub fn run_two<P: Panel, Q: Panel>(
    heap: Global,
    one: &mut Page,
    shown: &mut P,
    turns: &[Turn],
    other: &mut Page,
    over: &mut Q,
    others: &[Turn],
) -> Result<(Transcript, Transcript), AllocError>
    ensures ran { MatchResult result (λ t. Ran (on_panel one.old (P.Panel.shows shown.old)) (map meant turns.now) t.0.answers.items t.0.written.items (on_panel one.new (P.Panel.shows shown.new)) × Ran (on_panel other.old (Q.Panel.shows over.old)) (map meant others.now) t.1.answers.items t.1.written.items (on_panel other.new (Q.Panel.shows over.new)) × Agree (on_panel one.old (P.Panel.shows shown.old)).plain (on_panel other.old (Q.Panel.shows over.old)).plain (map meant turns.now) (map meant others.now) (on_panel one.new (P.Panel.shows shown.new)).plain (on_panel other.new (Q.Panel.shows over.new)).plain) (λ _. SomeRan (on_panel one.old (P.Panel.shows shown.old)) (map meant turns.now) (on_panel one.new (P.Panel.shows shown.new)) × SomeRan (on_panel other.old (Q.Panel.shows over.old)) (map meant others.now) (on_panel other.new (Q.Panel.shows over.new))) }
    ensures same { SameBytesSamePage }
{
    let first = run_turns(heap, one, shown, turns)?;
    let second = run_turns(heap, other, over, others)?;
    Ok((first, second))
}
