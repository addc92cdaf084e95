// Parameter strings, byte by byte.
ghost use Rattle.std.specs.Prelude.{◌≡◌, ◌<◌, [], Some};
ghost use Rattle.reader.specs.Steps.{grown as grows, with_digit, with_separator, bounded, with_byte, only_if};
ghost use Rattle.reader.specs.Meaning.{listed, parameters_in};

use crate::parameters::Parameters;

// The parameters with one more byte of their string; none where a bound is broken.
pub(crate) fn read_parameter(parameters: Option<Parameters>, byte: u8) -> Option<Parameters>
    ensures { parameters_in result ≡ with_byte (parameters_in parameters) byte }
{
    let mut known = parameters?;
    known.read(byte).then_some(known)
}

impl Parameters {
    pub(crate) fn none() -> Parameters
        ensures { listed result ≡ [] }
    {
        Parameters {
            numbers: [None; 16],
            count: 0,
        }
    }

    // The parameters in order.
    pub fn listed(&self) -> &[Option<u16>]
        ensures { result.now ≡ listed self.now }
    {
        &self.numbers[..self.count]
    }

    // Takes one more byte of the string, and answers whether the parameters are still within the bounds. In place: handed back in an
    // Option, sixteen slots would be copied at each byte.
    pub(crate) fn read(&mut self, byte: u8) -> bool
        ensures { only_if result (listed self.new) ≡ with_byte (Some (listed self.old)) byte }
    {
        match byte {
            0x30..=0x39 => {
                self.add_digit(u16::from(byte - 0x30));
                true
            }
            0x3B => self.add_separator(),
            _ => false,
        }
    }

    // A digit goes to the last parameter, or begins the first.
    fn add_digit(&mut self, digit: u16)
        requires { digit < 10 }
        ensures { listed self.new ≡ with_digit (listed self.old) digit }
    {
        self.count = self.count.max(1);
        let last = self.count - 1;
        self.numbers[last] = Some(grown(self.numbers[last], digit));
    }

    // A separator stands after a parameter, and begins one more; false where there is no room for it.
    fn add_separator(&mut self) -> bool
        ensures { only_if result (listed self.new) ≡ bounded (with_separator (listed self.old)) }
    {
        if self.count == self.numbers.len() {
            return false;
        }
        self.count = self.count.max(1) + 1;
        true
    }
}

// A number with one more digit: above 9,999 it stays 9,999, however many follow.
// A match: as one chain behind `unwrap_or`, tried, it took screens 4 in 100 more instructions.
fn grown(number: Option<u16>, digit: u16) -> u16
    requires { digit < 10 }
    ensures { result ≡ grows number digit }
{
    match number {
        Some(n) => n.saturating_mul(10).saturating_add(digit).min(9999),
        None => digit,
    }
}
