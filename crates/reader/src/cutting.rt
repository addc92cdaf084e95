// Where an item ends: the item reader's work, without single steps.
ghost use Rattle.std.specs.Prelude.{◌≡◌, ℕ, ◌+◌, ◌<◌, ◌≤◌, true, false, List, [], ◌∷◌, ◌++◌, length, MatchOption, slice_index};
ghost use Rattle.reader.specs.Bytes.{AllOf, Stops};
ghost use Rattle.reader.specs.Items.{Spells, begins};
ghost use Rattle.reader.specs.Classes.{member};
ghost use Rattle.reader.specs.Walks.{Leaves, Leads, Opens, ended, opens_more};
ghost use Rattle.reader.specs.Performs.{Part, Cut, ItemsPerform, CutsPerform, CutIsOnly, RestIsUnfinished};

use crate::item::{Item, Items, Kind};

// The kinds of byte that come in runs.
#[derive(Clone, Copy)]
pub enum Class {
    Graphic,
    Intermediate,
    Parameter,
    Body,
    EscapeFinal,
    SequenceFinal,
    Opener,
    EscapedOpener,
}

fn belongs(class: Class, byte: u8) -> bool
    ensures { result ≡ member class byte }
{
    matches!(
        (class, byte),
        (Class::Graphic, 0x20..=0x7E | 0xA0..=0xFF)
            | (Class::Intermediate, 0x20..=0x2F)
            | (Class::Parameter, 0x30..=0x3F)
            | (Class::Body, 0x08..=0x0D | 0x20..=0x7E)
            | (Class::EscapeFinal, 0x30..=0x7E)
            | (Class::SequenceFinal, 0x40..=0x7E)
            | (Class::Opener, 0x90 | 0x9D..=0x9F)
            | (Class::EscapedOpener, 0x50 | 0x5D..=0x5F)
    )
}

// The longest run of the class at the front, and what follows it.
fn run<'a>(class: Class, bytes: &'a [u8]) -> (&'a [u8], &'a [u8])
    ensures whole { result.0.now ++ result.1.now ≡ bytes.now }
    ensures all { AllOf (member class) result.0.now }
    ensures stops { Stops (member class) result.1.now }
{
    let n = bytes
        .iter()
        .take_while(|byte| belongs(class, **byte))
        .count();
    bytes.split_at(n)
}

// An item of the kind from its final byte, which is of the class: the kind, and what follows the item.
fn ended<'a>(class: Class, kind: Kind, tail: &'a [u8]) -> (Kind, &'a [u8])
    ensures kind { result.0 ≡ (ended (member class) kind tail.now).0 }
    ensures after { result.1.now ≡ (ended (member class) kind tail.now).1 }
{
    match tail {
        [] => (Kind::Rest, tail),
        [last, after @ ..] if belongs(class, *last) => (kind, after),
        [_, ..] => (Kind::Broken, tail),
    }
}

// After CSI: the kind, and what follows the item.
fn sequence<'a>(rest: &'a [u8]) -> (Kind, &'a [u8])
    ensures { Leaves (Spells 0x9B) result.0 rest.now result.1.now }
{
    let (_, marks) = run(Class::Parameter, rest);
    let (_, tail) = run(Class::Intermediate, marks);
    ended(Class::SequenceFinal, Kind::Sequence, tail)
}

// After ESC, where the next byte opens nothing longer.
fn escape<'a>(rest: &'a [u8]) -> (Kind, &'a [u8])
    requires { Stops opens_more rest.now }
    ensures { Leaves (λ c. c ≡ 0x1B ∷ []) result.0 rest.now result.1.now }
{
    let (_, tail) = run(Class::Intermediate, rest);
    ended(Class::EscapeFinal, Kind::Escape, tail)
}

// What follows a C1 control, in either form, at the front.
fn after_control<'a>(control: u8, bytes: &'a [u8]) -> Option<&'a [u8]>
    requires { 64 ≤ control }
    ensures { MatchOption result (begins control bytes.now ≡ false) (λ after. (begins control bytes.now ≡ true) × ((c : List ℕ) × Spells control c × (c ++ after.now ≡ bytes.now))) }
{
    match bytes {
        [first, after @ ..] if *first == control => Some(after),
        [0x1B, second, after @ ..] if *second == control - 64 => Some(after),
        _ => None,
    }
}

// After what opens a command string.
fn string<'a>(rest: &'a [u8]) -> (Kind, &'a [u8])
    ensures { Leaves Opens result.0 rest.now result.1.now }
{
    let (_, tail) = run(Class::Body, rest);
    if let Some(after) = after_control(0x9C, tail) {
        return (Kind::String, after);
    }
    match tail {
        [] => (Kind::Rest, tail),
        [0x1B] => (Kind::Rest, &[]),
        [_, ..] => (Kind::Broken, tail),
    }
}

// After SOS.
fn sos<'a>(rest: &'a [u8]) -> (Kind, &'a [u8])
    ensures { Leaves (Spells 0x98) result.0 rest.now result.1.now }
{
    let mut tail = rest;
    while let [_, next @ ..] = tail {
        if let Some(after) = after_control(0x9C, tail) {
            return (Kind::String, after);
        }
        if after_control(0x98, tail).is_some() {
            return (Kind::Broken, tail);
        }
        tail = next;
    }
    (Kind::Rest, tail)
}

// The kind of the first item, and what follows it.
fn first<'a>(bytes: &'a [u8]) -> Option<(Kind, &'a [u8])>
    ensures { MatchOption result (length bytes.now ≡ 0) (λ p. Leads p.0 bytes.now p.1.now) }
{
    match bytes {
        [] => None,
        [0x1B, ..] => Some(escaped(bytes)),
        [0x9B, rest @ ..] => Some(sequence(rest)),
        [0x98, rest @ ..] => Some(sos(rest)),
        [byte, rest @ ..] if belongs(Class::Opener, *byte) => Some(string(rest)),
        [byte, ..] if belongs(Class::Graphic, *byte) => {
            let (_, rest) = run(Class::Graphic, bytes);
            Some((Kind::Text, rest))
        }
        [_, rest @ ..] => Some((Kind::Control, rest)),
    }
}

// The same where the first byte is ESC.
fn escaped<'a>(bytes: &'a [u8]) -> (Kind, &'a [u8])
    requires some { 0 < length bytes.now }
    requires first { slice_index bytes.now 0 ≡ 0x1B }
    ensures { Leads result.0 bytes.now result.1.now }
{
    match bytes {
        [0x1B, 0x5B, rest @ ..] => sequence(rest),
        [0x1B, 0x58, rest @ ..] => sos(rest),
        [0x1B, next, rest @ ..] if belongs(Class::EscapedOpener, *next) => string(rest),
        [_, rest @ ..] => escape(rest),
        [] => (Kind::Rest, bytes),
    }
}

impl<'a> Items<'a> {
    pub fn new(bytes: &'a [u8]) -> Items<'a>
        ensures bytes { result.bytes.now ≡ bytes.now }
        ensures place { result.place ≡ 0 }
        ensures performs { ItemsPerform }
    {
        Items { bytes, place: 0 }
    }
}

impl<'a> Iterator for Items<'a> {
    ghost use Rattle.std.specs.Iterator.{at_most};
    ghost use Rattle.reader.specs.Giving.{GivesItem, bytes_left};

    type Item = Item<'a>;

    ghost next_gives = { GivesItem };

    ghost remaining = { λ items. at_most (bytes_left items) };

    // The next item, or none at the end of the bytes.
    #[tactic(auto, using(crate::proofs::Grammar::items_perform))]
    fn next(&mut self) -> Option<Item<'a>> {
        let bytes = self.bytes;
        let place = self.place;
        let (_, left) = bytes.split_at(place);
        let (kind, after) = first(left)?;
        let length = left.len() - after.len();
        let (part, _) = left.split_at(length);
        self.place = place + length;
        Some(Item {
            kind,
            place,
            bytes: part,
        })
    }
}

// How many items the bytes have.
pub fn count_items(bytes: &[u8]) -> usize
    ensures items { (ps : List Part) × (length ps ≡ result) × Cut 0 ps bytes.now }
    ensures only { CutIsOnly }
    ensures performs { CutsPerform }
    ensures unfinished { RestIsUnfinished }
{
    Items::new(bytes).count()
}
