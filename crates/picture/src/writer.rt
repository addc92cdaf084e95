// The writer's calls. Each writes at a buffer's front and answers the length; what is out of range is
// refused first, and a buffer that is too short second, both before anything is written.
ghost use Rattle.reader.specs.Functions.{control, sequence};
ghost use Rattle.reader.specs.Telling.{tells_sequence, SequencesTell};
ghost use Rattle.picture.specs.Writing.{written};
ghost use Rattle.picture.specs.Writes.{Writes, is_text, is_control, is_sequence, is_string, string_bytes, is_rewritable, rewritten};
ghost use Rattle.picture.specs.Reads.{ReadsInARow, TextReads, ControlReads, SequenceReads, StringReads, SequenceRewrites};

use crate::front::write_front;
use crate::pieces::{CommandString, Control, Sequence, Text};
use crate::ranges::{is_control, is_sequence, is_string, is_text};
use reader::item::Item;
use refusal::Refusal;

// Graphic characters, also none.
pub fn write_text(bytes: &[u8], buffer: &mut [u8]) -> Result<usize, Refusal>
    ensures writes { Writes (is_text bytes.now) bytes.now result buffer.old buffer.new }
    ensures reads { TextReads }
    ensures row { ReadsInARow }
{
    if !is_text(bytes) {
        return Err(Refusal::OutOfRange);
    }
    write_front(&Text { bytes }, buffer)
}

// A C0 control but ESC as itself, or a C1 control but CSI, SOS and the openers as ESC and a final byte.
pub fn write_control(byte: u8, buffer: &mut [u8]) -> Result<usize, Refusal>
    ensures writes { Writes (is_control byte) (written (control byte)) result buffer.old buffer.new }
    ensures reads { ControlReads }
    ensures row { ReadsInARow }
{
    if !is_control(byte) {
        return Err(Refusal::OutOfRange);
    }
    write_front(&Control { byte }, buffer)
}

// A control sequence of at most sixteen parameters up to 9,999; `None` is an empty one.
pub fn write_sequence(
    parameters: &[Option<u16>],
    space: bool,
    final_byte: u8,
    buffer: &mut [u8],
) -> Result<usize, Refusal>
    ensures writes { Writes (is_sequence parameters.now final_byte) (written (sequence parameters.now space final_byte)) result buffer.old buffer.new }
    ensures reads { SequenceReads }
    ensures row { ReadsInARow }
{
    if !is_sequence(parameters, final_byte) {
        return Err(Refusal::OutOfRange);
    }
    write_front(
        &Sequence {
            parameters,
            space,
            final_byte,
        },
        buffer,
    )
}

// A whole DCS, OSC, PM or APC string, by its opener's 8-bit code and its body.
pub fn write_string(opener: u8, body: &[u8], buffer: &mut [u8]) -> Result<usize, Refusal>
    ensures writes { Writes (is_string opener body.now) (string_bytes opener body.now) result buffer.old buffer.new }
    ensures reads { StringReads }
    ensures row { ReadsInARow }
{
    if !is_string(opener, body) {
        return Err(Refusal::OutOfRange);
    }
    write_front(&CommandString { opener, body }, buffer)
}

// A sequence that was read within the bounds, written again; any other item is out of range.
pub fn rewrite(item: &Item, buffer: &mut [u8]) -> Result<usize, Refusal>
    ensures writes { Writes (is_rewritable (tells_sequence item.now.kind item.now.bytes.now)) (rewritten (tells_sequence item.now.kind item.now.bytes.now)) result buffer.old buffer.new }
    ensures again { SequenceRewrites }
    ensures tells { SequencesTell }
    ensures reads { SequenceReads }
{
    let s = item.sequence().ok_or(Refusal::OutOfRange)?;
    write_sequence(s.parameters.listed(), s.space, s.final_byte, buffer)
}
