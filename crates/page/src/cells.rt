// Movements of cells, feeds, and graphic characters. Every movement is one shift of a part of the page.
ghost use Rattle.std.specs.Prelude.{◌≡◌};
ghost use Rattle.page.specs.Acts.{Acts};
ghost use Rattle.page.specs.Sheets.{state_of};
ghost use Rattle.page.specs.Cells.{all_of, line_rest, page_rest, moved, insert_characters, delete_characters, insert_lines, delete_lines, scroll, line_feed, reverse_line_feed, next_line, set_character, character};
ghost use Rattle.panel.specs.declared.shifting.Direction.TheVariants.{Right};

use crate::sheet::Sheet;
use crate::state::State;
use panel::{Cell, Direction, Panel, Rectangle, shift};

impl State {
    fn all(&self) -> Rectangle
        ensures { result ≡ all_of (state_of self.now) }
    {
        Rectangle {
            top: 1,
            left: 1,
            lines: self.size.lines,
            columns: self.size.columns,
        }
    }

    // The active line from the active column on.
    fn line_rest(&self) -> Rectangle
        ensures { result ≡ line_rest (state_of self.now) }
    {
        Rectangle {
            top: self.position.line,
            left: self.position.column,
            lines: 1,
            columns: self.to_edge(),
        }
    }

    // The active line and those below it.
    fn page_rest(&self) -> Rectangle
        ensures { result ≡ page_rest (state_of self.now) }
    {
        Rectangle {
            top: self.position.line,
            left: 1,
            lines: self.size.lines + 1 - self.position.line,
            columns: self.size.columns,
        }
    }
}

impl<P: Panel> Sheet<'_, P> {
    pub(crate) fn insert_characters(&mut self, n: u16)
        ensures { Acts P.Panel.shows (insert_characters n) self.old self.new }
    {
        let _ = shift(&mut self.panel, self.state.line_rest(), Direction::Right, n);
        self.state.to_first_column();
    }

    pub(crate) fn delete_characters(&mut self, n: u16)
        ensures { Acts P.Panel.shows (delete_characters n) self.old self.new }
    {
        let _ = shift(&mut self.panel, self.state.line_rest(), Direction::Left, n);
    }

    pub(crate) fn insert_lines(&mut self, n: u16)
        ensures { Acts P.Panel.shows (insert_lines n) self.old self.new }
    {
        let _ = shift(&mut self.panel, self.state.page_rest(), Direction::Down, n);
        self.state.to_first_column();
    }

    pub(crate) fn delete_lines(&mut self, n: u16)
        ensures { Acts P.Panel.shows (delete_lines n) self.old self.new }
    {
        let _ = shift(&mut self.panel, self.state.page_rest(), Direction::Up, n);
        self.state.to_first_column();
    }

    pub(crate) fn scroll(&mut self, way: Direction, n: u16)
        ensures { Acts P.Panel.shows (scroll way n) self.old self.new }
    {
        let _ = shift(&mut self.panel, self.state.all(), way, n);
    }

    pub(crate) fn line_feed(&mut self)
        ensures { Acts P.Panel.shows line_feed self.old self.new }
    {
        if self.state.position.line < self.state.size.lines {
            self.state.down(1);
        } else {
            self.scroll(Direction::Up, 1);
        }
    }

    pub(crate) fn reverse_line_feed(&mut self)
        ensures { Acts P.Panel.shows reverse_line_feed self.old self.new }
    {
        if 1 < self.state.position.line {
            self.state.up(1);
        } else {
            self.scroll(Direction::Down, 1);
        }
    }

    pub(crate) fn next_line(&mut self)
        ensures { Acts P.Panel.shows next_line self.old self.new }
    {
        self.state.to_first_column();
        self.line_feed();
    }

    // Sets a graphic character at the active position, which grows by one column.
    fn set_character(&mut self, code: u8)
        ensures { Acts P.Panel.shows (set_character code) self.old self.new }
    {
        let cell = Cell {
            code,
            rendition: self.state.rendition_number,
        };
        let _ = self.panel.set(self.state.position, cell);
        self.state.advance();
    }

    // The rest of the line moves one right.
    fn open(&mut self)
        ensures { Acts P.Panel.shows (moved line_rest Right 1) self.old self.new }
    {
        let _ = shift(&mut self.panel, self.state.line_rest(), Direction::Right, 1);
    }

    pub(crate) fn character(&mut self, code: u8)
        ensures { Acts P.Panel.shows (character code) self.old self.new }
    {
        if self.state.modes.insertion {
            self.open();
        }
        self.set_character(code);
    }
}
