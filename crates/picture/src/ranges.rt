// What the writer can be asked for: a rule of its own, beside the reader's classes of bytes as they come.
ghost use Rattle.std.specs.Prelude.{◌≡◌};
ghost use Rattle.std.specs.List.{list_all};
ghost use Rattle.reader.specs.Bytes.{is_graphic, is_opener, is_body};
ghost use Rattle.picture.specs.Writes.{is_text, is_control, is_small, is_told, is_sequence, is_string};

fn is_graphic(b: u8) -> bool
    ensures { result ≡ is_graphic b }
{
    matches!(b, 0x20..=0x7E | 0xA0..=0xFF)
}

pub(crate) fn is_text(bytes: &[u8]) -> bool
    ensures { result ≡ is_text bytes.now }
{
    bytes.iter().all(|b| is_graphic(*b))
}

// C0 but ESC, and C1 but those that begin a sequence or a string.
pub(crate) fn is_control(b: u8) -> bool
    ensures { result ≡ is_control b }
{
    matches!(b, 0x00..=0x1A | 0x1C..=0x1F | 0x80..=0x8F | 0x91..=0x97 | 0x99 | 0x9A | 0x9C)
}

fn is_small(parameter: Option<u16>) -> bool
    ensures { result ≡ is_small parameter }
{
    parameter.is_none_or(|n| n <= 9999)
}

fn all_small(parameters: &[Option<u16>]) -> bool
    ensures { result ≡ list_all is_small parameters.now }
{
    parameters.iter().all(|p| is_small(*p))
}

// A lone parameter is not empty: its bytes would be those of none.
fn is_told(parameters: &[Option<u16>]) -> bool
    ensures { result ≡ is_told parameters.now }
{
    !matches!(parameters, [None])
}

pub(crate) fn is_sequence(parameters: &[Option<u16>], final_byte: u8) -> bool
    ensures { result ≡ is_sequence parameters.now final_byte }
{
    parameters.len() <= 16
        && all_small(parameters)
        && is_told(parameters)
        && matches!(final_byte, 0x40..=0x7E)
}

fn is_opener(b: u8) -> bool
    ensures { result ≡ is_opener b }
{
    matches!(b, 0x90 | 0x9D..=0x9F)
}

fn is_body_byte(b: u8) -> bool
    ensures { result ≡ is_body b }
{
    matches!(b, 0x08..=0x0D | 0x20..=0x7E)
}

fn is_body(body: &[u8]) -> bool
    ensures { result ≡ list_all is_body body.now }
{
    body.iter().all(|b| is_body_byte(*b))
}

pub(crate) fn is_string(opener: u8, body: &[u8]) -> bool
    ensures { result ≡ is_string opener body.now }
{
    is_opener(opener) && is_body(body)
}
