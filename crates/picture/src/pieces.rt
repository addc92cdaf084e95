// What the writer puts: each piece by its bytes.
ghost use Rattle.std.specs.Prelude.{◌≤◌};
ghost use Rattle.reader.specs.Functions.{control, sequence};
ghost use Rattle.picture.specs.Writing.{written};
ghost use Rattle.picture.specs.Writes.{string_bytes};

use crate::front::Written;
use crate::out::{ESC, Out};

#[derive(Clone, Copy, Debug)]
pub struct Text<'a> {
    pub bytes: &'a [u8],
}

impl Written for Text<'_> {
    ghost bytes = { λ t. t.bytes.now };

    fn put(&self, out: &mut Out) {
        out.put_all(self.bytes);
    }
}

#[derive(Clone, Copy, Debug)]
pub struct Control {
    pub byte: u8,
}

impl Written for Control {
    ghost bytes = { λ c. written (control c.byte) };

    fn put(&self, out: &mut Out) {
        if self.byte >= 0x80 {
            out.put(ESC);
            out.put(self.byte - 64);
        } else {
            out.put(self.byte);
        }
    }
}

#[derive(Clone, Copy, Debug)]
pub struct Sequence<'a> {
    pub parameters: &'a [Option<u16>],
    pub space: bool,
    pub final_byte: u8,
}

impl Written for Sequence<'_> {
    ghost bytes = { λ s. written (sequence s.parameters.now s.space s.final_byte) };

    fn put(&self, out: &mut Out) {
        out.put_sequence(self.parameters, self.space, self.final_byte);
    }
}

// A string by its opener's 8-bit code. Not the reader's ControlString, which knows nothing of its opener.
#[derive(Clone, Copy, Debug)]
pub struct CommandString<'a> {
    pub opener: u8,
    pub body: &'a [u8],
    ghost high: { 64 ≤ opener },
}

impl Written for CommandString<'_> {
    ghost bytes = { λ s. string_bytes s.opener s.body.now };

    fn put(&self, out: &mut Out) {
        out.put(ESC);
        out.put(self.opener - 64);
        out.put_all(self.body);
        out.put(ESC);
        out.put(b'\\');
    }
}
