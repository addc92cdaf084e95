// The planes of a module panel: where the bytes of a cell stand.
ghost use Rattle.std.specs.Prelude.{◌≡◌, ◌+◌, ◌*◌, ◌<◌, length};
ghost use Rattle.panel.specs.Moduled.{row_of, gathered, scattered};

use crate::Cell;

// The row in a plane of a line, both counted from 0: the odd lines, counted from 1, are in front.
pub(crate) fn plane_row(lines: usize, line: usize) -> usize
    requires { (line < lines) × (lines < 65536) }
    ensures { result ≡ row_of lines line }
{
    if line % 2 == 0 {
        line / 2
    } else {
        (lines + 1) / 2 + line / 2
    }
}

// The cell at the place `at` of planes of `n` bytes.
pub(crate) fn gather(bytes: &[u8], n: usize, at: usize) -> Cell
    requires { 2 * n + at < length bytes.now }
    ensures { result ≡ gathered n bytes.now at }
{
    Cell {
        code: bytes[at],
        rendition: u16::from_le_bytes([bytes[n + at], bytes[2 * n + at]]),
    }
}

// Puts a cell at the place `at` of planes of `n` bytes.
pub(crate) fn scatter(bytes: &mut [u8], n: usize, at: usize, cell: Cell)
    requires { 2 * n + at < length bytes.old }
    ensures { bytes.new ≡ scattered n bytes.old at cell }
{
    let [low, high] = cell.rendition.to_le_bytes();
    bytes[at] = cell.code;
    bytes[n + at] = low;
    bytes[2 * n + at] = high;
}
