// Where the reader stands between two bytes.
//
// Two standings that behave alike whatever follows are equal: a sequence that can perform nothing
// any more has forgotten its numbers, and the four command strings are one standing.
use crate::parameters::Parameters;

#[derive(Clone, Copy, Debug, PartialEq, Eq)]
pub enum Standing {
    Rest,
    // after ESC, and whether intermediate bytes were read
    Escape { intermediates: bool },
    // after CSI, by the parameters so far; None where a bound is broken
    Sequence { parameters: Option<Parameters> },
    // and after intermediate bytes; None where these are not a single 20 either
    Intermediates { parameters: Option<Parameters> },
    // in a string opened by DCS, OSC, PM or APC
    CommandString,
    // in a string opened by SOS, and whether ESC came last
    Sos { escape: bool },
}
