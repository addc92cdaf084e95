// The number that stands for a rendition in a cell: one for each of its aspects, in mixed radix.
// By name, and not as From and TryFrom, which would say no more: a reader of cells sees which number is meant.
ghost use Rattle.std.specs.Prelude.{◌≡◌, ◌<◌, if◌then◌else◌, Some, None, nat_lt};
ghost use Rattle.control.specs.Renditions.{number as number_of, rendition_of, NumbersNameRenditions};

use crate::rendition::{Blink, Colour, Intensity, Rendition, Underline};

// The variants of each aspect by their numbers.
const INTENSITIES: [Intensity; 3] = [Intensity::Normal, Intensity::Bold, Intensity::Faint];

const UNDERLINES: [Underline; 3] = [Underline::Plain, Underline::Single, Underline::Double];

const BLINKS: [Blink; 3] = [Blink::Steady, Blink::Slow, Blink::Rapid];

pub(crate) const COLOURS: [Colour; 9] = [
    Colour::Default,
    Colour::Black,
    Colour::Red,
    Colour::Green,
    Colour::Yellow,
    Colour::Blue,
    Colour::Magenta,
    Colour::Cyan,
    Colour::White,
];

impl Rendition {
    // The number that stands for it in a cell, 0 to 34,991.
    pub fn number(self) -> u16
        ensures answer { result ≡ number_of self }
        ensures small { result < 34992 }
    {
        self.intensity as u16
            + 3 * u16::from(self.italic)
            + 6 * self.underline as u16
            + 18 * self.blink as u16
            + 54 * u16::from(self.negative)
            + 108 * u16::from(self.concealed)
            + 216 * u16::from(self.crossed_out)
            + 432 * self.foreground as u16
            + 3888 * self.background as u16
    }

    // The rendition that a number stands for; none above 34,991.
    pub fn from_number(number: u16) -> Option<Rendition>
        ensures answer { result ≡ (if nat_lt number 34992 then Some (rendition_of number) else None) }
        ensures names { NumbersNameRenditions }
    {
        if number >= 34992 {
            return None;
        }
        Some(Rendition {
            intensity: INTENSITIES[usize::from(number % 3)],
            italic: number / 3 % 2 == 1,
            underline: UNDERLINES[usize::from(number / 6 % 3)],
            blink: BLINKS[usize::from(number / 18 % 3)],
            negative: number / 54 % 2 == 1,
            concealed: number / 108 % 2 == 1,
            crossed_out: number / 216 % 2 == 1,
            foreground: COLOURS[usize::from(number / 432 % 9)],
            background: COLOURS[usize::from(number / 3888)],
        })
    }
}
