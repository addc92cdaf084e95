// Parameters, and what SGR selects.
ghost use Rattle.std.specs.Prelude.{◌≡◌};
ghost use Rattle.control.specs.Renditions.{standard as standard_rendition};
ghost use Rattle.control.specs.Selecting.{numeric as numeric_of, selective as selective_of, changed, changed_all, selected};

use crate::numbering::COLOURS;
use crate::rendition::{Blink, Colour, Intensity, Rendition, Underline};

// A numeric parameter: missing, empty or 0 is 1.
pub(crate) fn numeric(parameter: Option<u16>) -> u16
    ensures { result ≡ numeric_of parameter }
{
    parameter.unwrap_or(1).max(1)
}

// A selective parameter: missing or empty is 0.
pub(crate) fn selective(parameter: Option<u16>) -> u16
    ensures { result ≡ selective_of parameter }
{
    parameter.unwrap_or(0)
}

impl Rendition {
    // Every aspect at its default.
    pub fn standard() -> Rendition
        ensures { result ≡ standard_rendition }
    {
        Rendition {
            intensity: Intensity::Normal,
            italic: false,
            underline: Underline::Plain,
            blink: Blink::Steady,
            negative: false,
            concealed: false,
            crossed_out: false,
            foreground: Colour::Default,
            background: Colour::Default,
        }
    }

    // What one value of SGR makes of a rendition; one that is not known changes nothing.
    fn changed(self, value: u16) -> Rendition
        ensures { result ≡ changed value self }
    {
        match value {
            0 => Rendition::standard(),
            1 => Rendition {
                intensity: Intensity::Bold,
                ..self
            },
            2 => Rendition {
                intensity: Intensity::Faint,
                ..self
            },
            3 => Rendition {
                italic: true,
                ..self
            },
            4 => Rendition {
                underline: Underline::Single,
                ..self
            },
            5 => Rendition {
                blink: Blink::Slow,
                ..self
            },
            6 => Rendition {
                blink: Blink::Rapid,
                ..self
            },
            7 => Rendition {
                negative: true,
                ..self
            },
            8 => Rendition {
                concealed: true,
                ..self
            },
            9 => Rendition {
                crossed_out: true,
                ..self
            },
            21 => Rendition {
                underline: Underline::Double,
                ..self
            },
            22 => Rendition {
                intensity: Intensity::Normal,
                ..self
            },
            23 => Rendition {
                italic: false,
                ..self
            },
            24 => Rendition {
                underline: Underline::Plain,
                ..self
            },
            25 => Rendition {
                blink: Blink::Steady,
                ..self
            },
            27 => Rendition {
                negative: false,
                ..self
            },
            28 => Rendition {
                concealed: false,
                ..self
            },
            29 => Rendition {
                crossed_out: false,
                ..self
            },
            30..=37 => Rendition {
                foreground: COLOURS[usize::from(value - 29)],
                ..self
            },
            39 => Rendition {
                foreground: Colour::Default,
                ..self
            },
            40..=47 => Rendition {
                background: COLOURS[usize::from(value - 39)],
                ..self
            },
            49 => Rendition {
                background: Colour::Default,
                ..self
            },
            _ => self,
        }
    }

    fn changed_all(self, parameters: &[Option<u16>]) -> Rendition
        ensures { result ≡ changed_all parameters.now self }
    {
        parameters
            .iter()
            .fold(self, |rendition, p| rendition.changed(selective(*p)))
    }

    // SGR: its values in order, and none is 0. It begins from the rendition, or from the standard one
    // where renditions do not combine. Each calls by itself: chosen first, tried, that took screens 2 in 100 more instructions.
    pub fn select(self, parameters: &[Option<u16>], combine: bool) -> Rendition
        ensures { result ≡ selected parameters.now combine self }
    {
        match parameters {
            [] => Rendition::standard(),
            _ => {
                if combine {
                    self.changed_all(parameters)
                } else {
                    Rendition::standard().changed_all(parameters)
                }
            }
        }
    }
}
