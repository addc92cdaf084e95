// Moves of the active position. Each goes through `go_to`, which keeps it on the page.
ghost use Rattle.std.specs.Prelude.{◌≡◌, ◌≤◌};
ghost use Rattle.page.specs.Sheets.{state_of};
ghost use Rattle.page.specs.Moves.{inside, first_column, last_column, go_to, up, down, right, left, to_column, to_line, to_first_column};

use crate::state::State;
use panel::Position;

// A number not below the first and not above the last.
fn inside(first: u16, last: u16, n: u32) -> u16
    requires { first ≤ last }
    ensures { result ≡ inside first last n }
{
    n.clamp(first as u32, last as u32) as u16
}

impl State {
    // The columns between which the position moves.
    pub(crate) fn first_column(&self) -> u16
        ensures { result ≡ first_column (state_of self.now) }
    {
        1
    }

    pub(crate) fn last_column(&self) -> u16
        ensures { result ≡ last_column (state_of self.now) }
    {
        self.size.columns
    }

    pub(crate) fn go_to(&mut self, line: u32, column: u32)
        ensures { state_of self.new ≡ go_to line column (state_of self.old) }
    {
        self.position = Position {
            line: inside(1, self.size.lines, line),
            column: inside(self.first_column(), self.last_column(), column),
        };
    }

    pub(crate) fn up(&mut self, n: u16)
        ensures { state_of self.new ≡ up n (state_of self.old) }
    {
        let Position { line, column } = self.position;
        self.go_to(line.saturating_sub(n) as u32, column as u32);
    }

    pub(crate) fn down(&mut self, n: u16)
        ensures { state_of self.new ≡ down n (state_of self.old) }
    {
        let Position { line, column } = self.position;
        self.go_to(line as u32 + n as u32, column as u32);
    }

    pub(crate) fn right(&mut self, n: u16)
        ensures { state_of self.new ≡ right n (state_of self.old) }
    {
        let Position { line, column } = self.position;
        self.go_to(line as u32, column as u32 + n as u32);
    }

    // One column to the right, as after a character.
    pub(crate) fn advance(&mut self)
        ensures { state_of self.new ≡ right 1 (state_of self.old) }
    {
        if self.position.column < self.last_column() {
            self.position.column += 1;
        }
    }

    pub(crate) fn left(&mut self, n: u16)
        ensures { state_of self.new ≡ left n (state_of self.old) }
    {
        let Position { line, column } = self.position;
        self.go_to(line as u32, column.saturating_sub(n) as u32);
    }

    pub(crate) fn to_column(&mut self, n: u16)
        ensures { state_of self.new ≡ to_column n (state_of self.old) }
    {
        self.go_to(self.position.line as u32, n as u32);
    }

    pub(crate) fn to_line(&mut self, n: u16)
        ensures { state_of self.new ≡ to_line n (state_of self.old) }
    {
        self.go_to(n as u32, self.position.column as u32);
    }

    pub(crate) fn to_first_column(&mut self)
        ensures { state_of self.new ≡ to_first_column (state_of self.old) }
    {
        self.to_column(self.first_column());
    }
}
