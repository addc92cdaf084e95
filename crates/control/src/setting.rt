// The parameters of SGR that set an aspect; none where it is at its default.
ghost use Rattle.std.specs.Prelude.{◌≡◌};
ghost use Rattle.control.specs.Setting.{intensity_parameter, underline_parameter, blink_parameter, black_of, colour_parameter, SetsIntensity, SetsUnderline, SetsBlink, SetsColour};

use crate::rendition::{Blink, Colour, Ground, Intensity, Underline};

impl Intensity {
    #[tactic(auto, using(crate::proofs::Sets::sets_intensity))]
    pub fn parameter(self) -> Option<u16>
        ensures is { result ≡ intensity_parameter self }
        ensures sets { SetsIntensity }
    {
        match self {
            Intensity::Normal => None,
            Intensity::Bold => Some(1),
            Intensity::Faint => Some(2),
        }
    }
}

impl Underline {
    #[tactic(auto, using(crate::proofs::Sets::sets_underline))]
    pub fn parameter(self) -> Option<u16>
        ensures is { result ≡ underline_parameter self }
        ensures sets { SetsUnderline }
    {
        match self {
            Underline::Plain => None,
            Underline::Single => Some(4),
            Underline::Double => Some(21),
        }
    }
}

impl Blink {
    #[tactic(auto, using(crate::proofs::Sets::sets_blink))]
    pub fn parameter(self) -> Option<u16>
        ensures is { result ≡ blink_parameter self }
        ensures sets { SetsBlink }
    {
        match self {
            Blink::Steady => None,
            Blink::Slow => Some(5),
            Blink::Rapid => Some(6),
        }
    }
}

impl Ground {
    // The parameter of black; the other colours follow.
    fn black(self) -> u16
        ensures { result ≡ black_of self }
    {
        match self {
            Ground::Foreground => 30,
            Ground::Background => 40,
        }
    }
}

impl Colour {
    pub fn parameter(self, ground: Ground) -> Option<u16>
        ensures is { result ≡ colour_parameter (black_of ground) self }
        ensures sets { SetsColour }
    {
        match self {
            Colour::Default => None,
            _ => Some(ground.black() + self as u16 - 1),
        }
    }
}
