// A rendition as the terminal is told it.
use control::rendition::{Ground, Rendition};
use std::alloc::{AllocError, Global};

// SGR: 0, and a parameter for each aspect that is not at its default.
pub(crate) fn put_rendition(
    heap: Global,
    text: &mut String,
    number: u16,
) -> Result<(), AllocError> {
    text.push_str("\x1b[0")?;
    if let Some(rendition) = Rendition::from_number(number) {
        for parameter in parameters(rendition) {
            if let Some(value) = parameter {
                text.push_str(format!(in heap; ";{value}")?.as_str())?;
            }
        }
    }
    text.push('m')
}

fn parameters(rendition: Rendition) -> [Option<u16>; 9] {
    [
        rendition.intensity.parameter(),
        rendition.italic.then_some(3),
        rendition.underline.parameter(),
        rendition.blink.parameter(),
        rendition.negative.then_some(7),
        rendition.concealed.then_some(8),
        rendition.crossed_out.then_some(9),
        rendition.foreground.parameter(Ground::Foreground),
        rendition.background.parameter(Ground::Background),
    ]
}
