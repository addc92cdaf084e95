// Renditions: how a graphic character looks, by nine aspects.

#[derive(Clone, Copy, Debug, PartialEq, Eq)]
pub enum Intensity {
    Normal,
    Bold,
    Faint,
}

#[derive(Clone, Copy, Debug, PartialEq, Eq)]
pub enum Underline {
    Plain,
    Single,
    Double,
}

#[derive(Clone, Copy, Debug, PartialEq, Eq)]
pub enum Blink {
    Steady,
    Slow,
    Rapid,
}

#[derive(Clone, Copy, Debug, PartialEq, Eq)]
pub enum Colour {
    Default,
    Black,
    Red,
    Green,
    Yellow,
    Blue,
    Magenta,
    Cyan,
    White,
}

// What a colour is of.
#[derive(Clone, Copy, Debug, PartialEq, Eq)]
pub enum Ground {
    Foreground,
    Background,
}

#[derive(Clone, Copy, Debug, PartialEq, Eq)]
pub struct Rendition {
    pub intensity: Intensity,
    pub italic: bool,
    pub underline: Underline,
    pub blink: Blink,
    pub negative: bool,
    pub concealed: bool,
    pub crossed_out: bool,
    pub foreground: Colour,
    pub background: Colour,
}
