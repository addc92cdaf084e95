// A list of turns on a page and its panel.
ghost use Rattle.std.specs.Prelude.{◌≡◌, ℕ, List, map, MatchResult};
ghost use Rattle.page.specs.Plain.{plain, on_panel};
ghost use Rattle.turns.specs.Turns.{turn, deliver};
ghost use Rattle.turns.specs.Running.{meant, Did, Ran, SomeRan};
ghost use Rattle.turns.specs.Cases.{CasesHold};
ghost use Rattle.turns.specs.Laws.{RunsShowItems, NeverForeign};

use crate::buffers::{buffer_of, keep};
use crate::turn::{Transcript, Turn};
use page::page::Page;
use panel::Panel;
use picture::{picture, reply};
use refusal::Refusal;
use std::alloc::{AllocError, Global};

fn delivered<P: Panel>(page: &mut Page, panel: &mut P, bytes: &[u8]) -> Result<usize, Refusal>
    ensures { (w : List ℕ) → Did (turn (plain page.old (P.Panel.shows panel.old).grid) (deliver bytes.now)) result (P.Panel.shows panel.old).beyond (on_panel page.new (P.Panel.shows panel.new)) w w }
{
    Ok(page.deliver(panel, bytes)?.taken)
}

// One turn; where memory fails, nothing is done.
fn take_turn<P: Panel>(
    heap: Global,
    page: &mut Page,
    panel: &mut P,
    next: &Turn,
    written: &mut Vec<u8>,
) -> Result<Result<usize, Refusal>, AllocError>
    ensures { MatchResult result (λ a. Did (turn (plain page.old (P.Panel.shows panel.old).grid) (meant next.now)) a (P.Panel.shows panel.old).beyond (on_panel page.new (P.Panel.shows panel.new)) written.old.items written.new.items) (λ _. (on_panel page.new (P.Panel.shows panel.new) ≡ on_panel page.old (P.Panel.shows panel.old)) × (written.new.items ≡ written.old.items)) }
{
    match next {
        Turn::Deliver(bytes) => Ok(delivered(page, panel, bytes)),
        Turn::Reply(room) => {
            let mut buffer = buffer_of(heap, *room, written)?;
            let answer = reply(page, &mut buffer);
            keep(answer, &buffer, written);
            Ok(answer)
        }
        Turn::Picture(room) => {
            let mut buffer = buffer_of(heap, *room, written)?;
            let answer = picture(page, panel, &mut buffer);
            keep(answer, &buffer, written);
            Ok(answer)
        }
    }
}

// Every turn in order. Where memory fails, whole turns from the first on were taken, and no other.
pub fn run_turns<P: Panel>(
    heap: Global,
    page: &mut Page,
    panel: &mut P,
    turns: &[Turn],
) -> Result<Transcript, AllocError>
    ensures ran { MatchResult result (λ t. Ran (on_panel page.old (P.Panel.shows panel.old)) (map meant turns.now) t.answers.items t.written.items (on_panel page.new (P.Panel.shows panel.new))) (λ _. SomeRan (on_panel page.old (P.Panel.shows panel.old)) (map meant turns.now) (on_panel page.new (P.Panel.shows panel.new))) }
    ensures items { RunsShowItems }
    ensures foreign { NeverForeign }
    ensures cases { CasesHold }
{
    let mut answers = Vec::with_capacity(heap, turns.len())?;
    let mut written = Vec::new(heap);
    for turn in turns {
        let answer = take_turn(heap, page, panel, turn, &mut written)?;
        answers.push_reserved(answer);
    }
    Ok(Transcript { answers, written })
}
