// What items tell.
ghost use Rattle.std.specs.Prelude.{◌≡◌, ℕ, List, MatchOption};
ghost use Rattle.std.specs.Option.{option_map, option_to_list};
ghost use Rattle.reader.specs.Meaning.{function_of, sequence_of};
ghost use Rattle.reader.specs.Steps.{rest, performed};
ghost use Rattle.reader.specs.Telling.{only_sequence, tells_sequence, SequencesTell, opens_string, Opened, Closed, StringParts, TellsString, StringIsOnly, StringsTell};

use crate::function::{Function, Sequence};
use crate::item::{ControlString, Item, Kind};
use crate::reader::Reader;

impl<'a> Item<'a> {
    // The parameters, space and final byte of a sequence item that is within the bounds.
    pub fn sequence(&self) -> Option<Sequence>
        ensures tells { option_to_list (option_map sequence_of result) ≡ tells_sequence self.now.kind self.now.bytes.now }
        ensures grammar { SequencesTell }
    {
        match self.kind {
            Kind::Sequence => performed_sequence(self.bytes),
            _ => None,
        }
    }

    // The opener and body of a string item.
    pub fn string(&self) -> Option<ControlString<'a>>
        ensures tells { MatchOption result ((k : ℕ) (body : List ℕ) → TellsString self.now.kind self.now.bytes.now k body → ⊥) (λ s. TellsString self.now.kind self.now.bytes.now s.opener s.body.now) }
        ensures only { StringIsOnly }
        ensures grammar { StringsTell }
    {
        match self.kind {
            Kind::String => string_parts(self.bytes),
            _ => None,
        }
    }
}

// The sequence that the bytes perform from rest, where they perform nothing else.
fn performed_sequence(bytes: &[u8]) -> Option<Sequence>
    ensures { option_to_list (option_map sequence_of result) ≡ only_sequence (performed rest bytes.now) }
{
    let mut reader = Reader::new();
    let mut told = None;
    // A loop, since no proof follows a chain whose closure changes the reader.
    for byte in bytes {
        if let Some(function) = reader.step(*byte).function {
            if told.replace(function).is_some() {
                return None;
            }
        }
    }
    as_sequence(told)
}

fn as_sequence(told: Option<Function>) -> Option<Sequence>
    ensures { option_to_list (option_map sequence_of result) ≡ only_sequence (option_to_list (option_map function_of told)) }
{
    match told {
        Some(Function::Sequence(sequence)) => Some(sequence),
        _ => None,
    }
}

// The bytes as an opener, a body and ST.
fn string_parts<'a>(bytes: &'a [u8]) -> Option<ControlString<'a>>
    ensures { MatchOption result ((k : ℕ) (body : List ℕ) → StringParts bytes.now k body → ⊥) (λ s. StringParts bytes.now s.opener s.body.now) }
{
    let (opener, after) = after_opener(bytes)?;
    let body = before_st(after)?;
    Some(ControlString { opener, body })
}

fn opens_string(control: u8) -> bool
    ensures { result ≡ opens_string control }
{
    matches!(control, 0x90 | 0x98 | 0x9D..=0x9F)
}

// What opens a string, by its 8-bit code, and what follows it.
fn after_opener<'a>(bytes: &'a [u8]) -> Option<(u8, &'a [u8])>
    ensures { MatchOption result ((k : ℕ) (l : List ℕ) → Opened bytes.now k l → ⊥) (λ p. Opened bytes.now p.0 p.1.now) }
{
    match bytes {
        [0x1B, second, after @ ..] if opens_string(second.saturating_add(64)) => {
            Some((second.saturating_add(64), after))
        }
        [first, after @ ..] if opens_string(*first) => Some((*first, after)),
        _ => None,
    }
}

// What stands before ST at the end.
fn before_st<'a>(bytes: &'a [u8]) -> Option<&'a [u8]>
    ensures { MatchOption result ((body : List ℕ) → Closed bytes.now body → ⊥) (λ body. Closed bytes.now body.now) }
{
    match bytes {
        [body @ .., 0x9C] => Some(body),
        [body @ .., 0x1B, 0x5C] => Some(body),
        _ => None,
    }
}
