// What bytes perform.
use crate::parameters::Parameters;

// A control sequence within the bounds; `space` where one 20 stood before the final byte.
#[derive(Clone, Copy, Debug, PartialEq, Eq)]
pub struct Sequence {
    pub parameters: Parameters,
    pub space: bool,
    pub final_byte: u8,
}

#[derive(Clone, Copy, Debug, PartialEq, Eq)]
pub enum Function {
    Graphic(u8),
    // a C0 control, or a C1 control by its 8-bit code
    Control(u8),
    // RIS
    Reset,
    Sequence(Sequence),
}

// What one byte has completed. A struct, so that a byte may come to complete more than one thing.
#[derive(Clone, Copy, Debug, PartialEq, Eq)]
pub struct Completed {
    pub function: Option<Function>,
}
