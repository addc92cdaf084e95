// Whatever is written goes to a buffer's front whole, or not at all.
ghost use Rattle.std.specs.Prelude.{◌≡◌, ℕ, ◌^◌, ◌<◌, ◌≤◌, true, List, length};
ghost use Rattle.picture.specs.Tape.{tape, Lays, over, needed};
ghost use Rattle.picture.specs.Writes.{Writes};

use crate::out::Out;
use refusal::Refusal;

// What can be put as bytes, one after the other.
pub trait Written {
    ghost bytes: { Self → List ℕ };

    fn put(&self, out: &mut Out)
        ensures { Lays (tape out.old) (bytes self.now) (tape out.new) };
}

// The length, by putting the bytes where there is no room for any.
fn measure<W: Written>(what: &W) -> usize
    ensures { result ≡ needed (W.Written.bytes what.now) }
{
    let mut none: [u8; 0] = [];
    let mut out = Out::new(&mut none);
    what.put(&mut out);
    out.length()
}

fn lay<W: Written>(what: &W, buffer: &mut [u8])
    requires { length (W.Written.bytes what.now) ≤ length buffer.old }
    ensures { buffer.new ≡ over (W.Written.bytes what.now) buffer.old }
{
    let mut out = Out::new(buffer);
    what.put(&mut out);
}

// The bytes at the buffer's front, if all of them fit. The length is known before the first is written.
pub(crate) fn write_front<W: Written>(what: &W, buffer: &mut [u8]) -> Result<usize, Refusal>
    requires { length (W.Written.bytes what.now) < 2 ^ 64 }
    ensures { Writes true (W.Written.bytes what.now) result buffer.old buffer.new }
{
    let needed = measure(what);
    if buffer.len() < needed {
        return Err(Refusal::ShortBuffer { needed });
    }
    lay(what, buffer);
    Ok(needed)
}
