// What the item reader hands out.
ghost use Rattle.std.specs.Prelude.{◌≤◌, length};

use std::fmt;

#[derive(Clone, Copy, Debug, PartialEq, Eq)]
pub enum Kind {
    // the longest run of graphic characters
    Text,
    // one C0 or C1 control, or DEL
    Control,
    Escape,
    Sequence,
    // opener, body and ST
    String,
    // an escape, a sequence or a string that was cut off, without what cut it
    Broken,
    // one of these that the bytes leave unfinished
    Rest,
}

// The kind's name.
impl fmt::Display for Kind {
    ghost use Rattle.std.specs.Prelude.{Some};
    ghost use Rattle.std.specs.Fmt.{padded};
    ghost use Rattle.reader.specs.Names.{kind_name};

    ghost output = { λ kind. Some (kind_name kind) };

    ghost styled_output = { λ kind spec. Some (padded spec (kind_name kind)) };

    fn fmt<W: fmt::Write>(&self, f: &mut fmt::Formatter<W>) -> fmt::Result {
        f.pad(match self {
            Kind::Text => "text",
            Kind::Control => "control",
            Kind::Escape => "escape",
            Kind::Sequence => "sequence",
            Kind::String => "string",
            Kind::Broken => "broken",
            Kind::Rest => "rest",
        })
    }
}

// A part of the bytes, with its place in them, counted from 0.
#[derive(Clone, Copy, Debug, PartialEq, Eq)]
pub struct Item<'a> {
    pub kind: Kind,
    pub place: usize,
    pub bytes: &'a [u8],
}

// What a string item tells: its opener, by its 8-bit code, and what stands between that and ST.
#[derive(Clone, Copy, Debug, PartialEq, Eq)]
pub struct ControlString<'a> {
    pub opener: u8,
    pub body: &'a [u8],
}

// Walks along lent bytes, and hands out their items one by one. It keeps all the bytes and its place, since an item tells its place
// among all of them.
#[derive(Debug, Drop)]
pub struct Items<'a> {
    pub(crate) bytes: &'a [u8],
    pub(crate) place: usize,
    ghost within: { place ≤ length bytes.now },
}
