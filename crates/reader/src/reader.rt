ghost use Rattle.std.specs.Prelude.{◌≡◌};

use crate::standing::Standing;

// Reads bytes one by one. It is one value, changed in place, and allocates nothing.
#[derive(Clone, Copy, Debug, PartialEq, Eq)]
pub struct Reader {
    pub(crate) standing: Standing,
}

impl Reader {
    // Where the reader stands.
    pub fn standing(&self) -> Standing
        ensures { result ≡ self.now.standing }
    {
        self.standing
    }
}
