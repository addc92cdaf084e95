// The modes that a page has, and what SM and RM make of them.
ghost use Rattle.std.specs.Prelude.{◌≡◌};
ghost use Rattle.control.specs.Selecting.{set_mode, set_all};

use crate::selecting::selective;

#[derive(Clone, Copy, Debug, PartialEq, Eq)]
pub struct Modes {
    // IRM: a character is inserted, in place of replacing
    pub insertion: bool,
    // GRCM: SGR combines with what is selected, in place of replacing it
    pub combination: bool,
}

impl Modes {
    fn with(self, mode: u16, set: bool) -> Modes
        ensures { result ≡ set_mode set mode self }
    {
        match mode {
            4 => Modes {
                insertion: set,
                ..self
            },
            21 => Modes {
                combination: set,
                ..self
            },
            _ => self,
        }
    }

    // Each of the modes that the parameters name is set, or reset; others are not known and pass.
    pub fn with_all(self, parameters: &[Option<u16>], set: bool) -> Modes
        ensures { result ≡ set_all set parameters.now self }
    {
        parameters
            .iter()
            .fold(self, |modes, p| modes.with(selective(*p), set))
    }
}
