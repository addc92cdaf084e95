// What bytes do to a page and its panel.
ghost use Rattle.std.specs.Prelude.{◌≡◌, ◌≤◌, Some, is_some};
ghost use Rattle.reader.specs.Meaning.{function_of, functions_of};
ghost use Rattle.reader.specs.Steps.{step as steps};
ghost use Rattle.page.specs.Sheets.{state_of, owing, reading};
ghost use Rattle.page.specs.Acts.{Acts};
ghost use Rattle.page.specs.Effects.{fresh, begun, select_rendition, set_modes, effect, does, stepped};

use crate::sheet::Sheet;
use crate::state::State;
use crate::stops::Stops;
use control::decode;
use control::function::{Control, Report};
use control::modes::Modes;
use control::rendition::Rendition;
use panel::{Direction, Panel, Position, Size, clear};
use reader::function::{Completed, Function};
use reader::reader::Reader;
use reader::standing::Standing;

impl State {
    // The state of a page as it begins.
    pub(crate) fn new(size: Size) -> State
        requires { (1 ≤ size.lines) × (size.lines ≤ 64) × (1 ≤ size.columns) × (size.columns ≤ 132) }
        ensures { state_of result ≡ fresh size.lines size.columns }
    {
        let rendition = Rendition::standard();
        State {
            size,
            position: Position { line: 1, column: 1 },
            rendition,
            rendition_number: rendition.number(),
            column_stops: Stops::every_eighth(),
            line_stops: Stops::none(),
            modes: Modes {
                insertion: false,
                combination: false,
            },
            reader: Reader::new(),
            owed: None,
        }
    }

    // SGR.
    fn select_rendition(&mut self, parameters: &[Option<u16>])
        ensures { state_of self.new ≡ select_rendition parameters.now (state_of self.old) }
    {
        let rendition = self.rendition.select(parameters, self.modes.combination);
        self.rendition = rendition;
        self.rendition_number = rendition.number();
    }

    // SM and RM.
    fn set_modes(&mut self, parameters: &[Option<u16>], set: bool)
        ensures { state_of self.new ≡ set_modes set parameters.now (state_of self.old) }
    {
        self.modes = self.modes.with_all(parameters, set);
    }

    // DSR.
    fn owe(&mut self, report: Report)
        ensures { state_of self.new ≡ owing (Some report) (state_of self.old) }
    {
        self.owed = Some(report);
    }

    // Where its reader stands. This and the two that follow are methods, since no proof follows a sheet of whose lent state a part is lent.
    fn standing(&self) -> Standing
        ensures { result ≡ self.now.reader.standing }
    {
        self.reader.standing()
    }

    // Whether a reply is owed.
    pub(crate) fn is_owing(&self) -> bool
        ensures { result ≡ is_some self.now.owed }
    {
        self.owed.is_some()
    }

    // A byte, and what it completes.
    fn read(&mut self, byte: u8) -> Completed
        ensures reads { state_of self.new ≡ reading (steps (state_of self.old).standing byte).standing (state_of self.old) }
        ensures completes { functions_of result ≡ (steps (state_of self.old).standing byte).performs }
    {
        self.reader.step(byte)
    }

    // A byte that completes nothing.
    fn pass(&mut self, byte: u8)
        ensures { state_of self.new ≡ reading (steps (state_of self.old).standing byte).standing (state_of self.old) }
    {
        self.reader.skip(byte);
    }
}

impl<P: Panel> Sheet<'_, P> {
    // RIS: every cell is erased, and the page begins anew.
    fn reset(&mut self)
        ensures { Acts P.Panel.shows (λ x. begun x.grid) self.old self.new }
    {
        clear(&mut self.panel);
        *self.state = State::new(self.state.size);
    }

    // A control function, with the values of the sequence that selects it.
    fn act(&mut self, control: Control, parameters: &[Option<u16>])
        ensures { Acts P.Panel.shows (effect control parameters.now) self.old self.new }
    {
        match control {
            Control::Nothing => {}
            Control::Character(code) => self.character(code),
            Control::Reset => self.reset(),
            Control::Up(n) => self.state.up(n),
            Control::Down(n) => self.state.down(n),
            Control::Right(n) => self.state.right(n),
            Control::Left(n) => self.state.left(n),
            Control::ToColumn(n) => self.state.to_column(n),
            Control::ToLine(n) => self.state.to_line(n),
            Control::GoTo(line, column) => self.state.go_to(line as u32, column as u32),
            Control::ToFirstColumn => self.state.to_first_column(),
            Control::EraseInPage(extent) => self.erase_in_page(extent),
            Control::EraseInLine(extent) => self.erase_in_line(extent),
            Control::EraseCharacters(n) => self.erase_characters(n),
            Control::InsertCharacters(n) => self.insert_characters(n),
            Control::DeleteCharacters(n) => self.delete_characters(n),
            Control::InsertLines(n) => self.insert_lines(n),
            Control::DeleteLines(n) => self.delete_lines(n),
            Control::ScrollUp(n) => self.scroll(Direction::Up, n),
            Control::ScrollDown(n) => self.scroll(Direction::Down, n),
            Control::ScrollLeft(n) => self.scroll(Direction::Left, n),
            Control::ScrollRight(n) => self.scroll(Direction::Right, n),
            Control::Tab(n) => self.state.tab(n),
            Control::BackTab(n) => self.state.back_tab(n),
            Control::LineTab(n) => self.state.line_tab(n),
            Control::SetColumnStop => self.state.mark_column(true),
            Control::SetLineStop => self.state.mark_line(true),
            Control::Clear(which) => self.state.clear(which),
            Control::SetModes => self.state.set_modes(parameters, true),
            Control::ResetModes => self.state.set_modes(parameters, false),
            Control::SelectRendition => self.state.select_rendition(parameters),
            Control::Request(report) => self.state.owe(report),
            Control::LineFeed => self.line_feed(),
            Control::ReverseLineFeed => self.reverse_line_feed(),
            Control::NextLine => self.next_line(),
        }
    }

    fn perform(&mut self, function: &Function)
        ensures { Acts P.Panel.shows (does (function_of function.now)) self.old self.new }
    {
        let control = decode(function);
        match function {
            Function::Sequence(sequence) => self.act(control, sequence.parameters.listed()),
            _ => self.act(control, &[]),
        }
    }

    // Any byte: the reader tells what it completes.
    fn complete(&mut self, byte: u8)
        ensures { Acts P.Panel.shows (λ x. stepped x byte) self.old self.new }
    {
        if let Some(function) = self.state.read(byte).function {
            self.perform(&function);
        }
    }

    // What one byte does. Most are characters at rest and bytes of a sequence's parameters, of which it is known what they
    // complete.
    pub(crate) fn step(&mut self, byte: u8)
        ensures { Acts P.Panel.shows (λ x. stepped x byte) self.old self.new }
    {
        match (self.state.standing(), byte) {
            (Standing::Rest, 0x20..=0x7E | 0xA0..=0xFF) => self.character(byte),
            (Standing::Sequence { .. }, 0x30..=0x3F) => self.state.pass(byte),
            _ => self.complete(byte),
        }
    }
}
