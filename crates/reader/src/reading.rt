// The stepper: what each byte does at each standing.
ghost use Rattle.std.specs.Prelude.{◌≡◌, length, Some};
ghost use Rattle.reader.specs.Steps.{rest, step as steps, at_rest, sequence_final, standing_after, performed};
ghost use Rattle.reader.specs.Requests.{is_report, any_requests, until_request};
ghost use Rattle.reader.specs.Laws.{ReadsInParts, ReadsNumbers, ReadsReset, StandingsDiffer, StopsAtRequest};
ghost use Rattle.reader.specs.Table.{BytesByStanding};
ghost use Rattle.reader.specs.Meaning.{parameters_in, standing_of, functions_of};

use crate::function::{Completed, Function, Sequence};
use crate::numbers::read_parameter;
use crate::parameters::Parameters;
use crate::reader::Reader;
use crate::standing::Standing;

const NOTHING: Completed = Completed { function: None };

impl Reader {
    pub fn new() -> Reader
        ensures { standing_of result.standing ≡ rest }
    {
        Reader {
            standing: Standing::Rest,
        }
    }

    // Reads one byte, and answers what it completes.
    pub fn step(&mut self, byte: u8) -> Completed
        ensures standing { standing_of self.new.standing ≡ (steps (standing_of self.old.standing) byte).standing }
        ensures completes { functions_of result ≡ (steps (standing_of self.old.standing) byte).performs }
    {
        match (self.standing, byte) {
            (
                Standing::Escape {
                    intermediates: false,
                },
                0x40..=0x5F,
            ) => self.at_rest(byte + 64),
            (
                Standing::Escape {
                    intermediates: false,
                },
                0x63,
            ) => {
                self.standing = Standing::Rest;
                completed(Function::Reset)
            }
            (Standing::Escape { .. }, 0x20..=0x2F) => {
                self.standing = Standing::Escape {
                    intermediates: true,
                };
                NOTHING
            }
            (Standing::Escape { .. }, 0x30..=0x7E) => {
                self.standing = Standing::Rest;
                NOTHING
            }
            (Standing::Sequence { parameters }, 0x30..=0x3F) => {
                let parameters = read_parameter(parameters, byte);
                self.standing = Standing::Sequence { parameters };
                NOTHING
            }
            (Standing::Sequence { parameters }, 0x20) => {
                self.standing = Standing::Intermediates { parameters };
                NOTHING
            }
            (Standing::Sequence { .. } | Standing::Intermediates { .. }, 0x20..=0x2F) => {
                self.standing = Standing::Intermediates { parameters: None };
                NOTHING
            }
            (Standing::Sequence { parameters }, 0x40..=0x7E) => {
                self.standing = Standing::Rest;
                finished(parameters, false, byte)
            }
            (Standing::Intermediates { parameters }, 0x40..=0x7E) => {
                self.standing = Standing::Rest;
                finished(parameters, true, byte)
            }
            (Standing::CommandString, 0x08..=0x0D | 0x20..=0x7E) => NOTHING,
            (Standing::Sos { escape: true }, 0x5C) | (Standing::Sos { .. }, 0x9C) => {
                self.standing = Standing::Rest;
                NOTHING
            }
            (Standing::Sos { .. }, _) => {
                self.standing = Standing::Sos {
                    escape: byte == 0x1B,
                };
                NOTHING
            }
            // what does not fit is read as at rest
            _ => self.at_rest(byte),
        }
    }

    // Reads one byte where nobody asks what it completes. Most bytes of a sequence complete nothing, and to answer that is most
    // of the work of a step.
    pub fn skip(&mut self, byte: u8)
        ensures { standing_of self.new.standing ≡ (steps (standing_of self.old.standing) byte).standing }
    {
        match (&mut self.standing, byte) {
            (
                Standing::Sequence {
                    parameters: Some(known),
                },
                0x30..=0x3F,
            ) => {
                if !known.read(byte) {
                    self.standing = Standing::Sequence { parameters: None };
                }
            }
            _ => {
                let _ = self.step(byte);
            }
        }
    }

    // Reads bytes, and answers how many functions they perform.
    pub fn read(&mut self, bytes: &[u8]) -> usize
        ensures standing { standing_of self.new.standing ≡ standing_after (standing_of self.old.standing) bytes.now }
        ensures performs { result ≡ length (performed (standing_of self.old.standing) bytes.now) }
        ensures parts { ReadsInParts }
        ensures numbers { ReadsNumbers }
        ensures reset { ReadsReset }
        ensures canonical { StandingsDiffer }
        ensures table { BytesByStanding }
    {
        // A loop, since no proof follows a chain whose closure changes the reader.
        let mut count = 0;
        for byte in bytes {
            if self.step(*byte).function.is_some() {
                count += 1;
            }
        }
        count
    }

    // How many of the bytes go up to and including the first that requests a reply; all where none does.
    pub fn until_request(&self, bytes: &[u8]) -> usize
        ensures answer { result ≡ until_request (standing_of self.now.standing) bytes.now }
        ensures stops { StopsAtRequest }
    {
        // A loop for the same reason.
        let mut reader = *self;
        for (i, byte) in bytes.iter().enumerate() {
            if requests_reply(reader.step(*byte)) {
                return i + 1;
            }
        }
        bytes.len()
    }

    #[tactic(auto, unfolding(crate::specs::Steps::at_rest))]
    fn at_rest(&mut self, byte: u8) -> Completed
        ensures standing { standing_of self.new.standing ≡ (at_rest byte).standing }
        ensures completes { functions_of result ≡ (at_rest byte).performs }
    {
        self.standing = Standing::Rest;
        match byte {
            0x20..=0x7E | 0xA0..=0xFF => completed(Function::Graphic(byte)),
            0x1B => {
                self.standing = Standing::Escape {
                    intermediates: false,
                };
                NOTHING
            }
            0x90 | 0x9D..=0x9F => {
                self.standing = Standing::CommandString;
                NOTHING
            }
            0x98 => {
                self.standing = Standing::Sos { escape: false };
                NOTHING
            }
            0x9B => {
                self.standing = Standing::Sequence {
                    parameters: Some(Parameters::none()),
                };
                NOTHING
            }
            0x7F | 0x9C => NOTHING,
            _ => completed(Function::Control(byte)),
        }
    }
}

fn completed(function: Function) -> Completed
    ensures { result.function ≡ Some function }
{
    Completed {
        function: Some(function),
    }
}

// The final byte of a sequence: nothing where a bound is broken.
fn finished(parameters: Option<Parameters>, space: bool, final_byte: u8) -> Completed
    ensures { functions_of result ≡ (sequence_final (parameters_in parameters) space final_byte).performs }
{
    match parameters {
        Some(parameters) => completed(Function::Sequence(Sequence {
            parameters,
            space,
            final_byte,
        })),
        None => NOTHING,
    }
}

// DSR with 5 or 6: a report that is owed.
fn requests_reply(completed: Completed) -> bool
    ensures { result ≡ any_requests (functions_of completed) }
{
    matches!(
        completed.function,
        Some(Function::Sequence(Sequence { parameters, space: false, final_byte: 0x6E }))
            if is_report(parameters.listed())
    )
}

fn is_report(parameters: &[Option<u16>]) -> bool
    ensures { result ≡ is_report parameters.now }
{
    matches!(parameters, [Some(5 | 6)])
}
