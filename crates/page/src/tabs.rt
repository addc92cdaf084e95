// Moves to stops, and stops set and cleared.
ghost use Rattle.std.specs.Prelude.{◌≡◌, ◌+◌, ◌^◌, ◌<◌, ◌≤◌, map, length, drop};
ghost use Rattle.std.specs.List.{range_with_len};
ghost use Rattle.page.specs.Sheets.{state_of};
ghost use Rattle.page.specs.Stops.{next_stop, previous_stop, first_stop, tab, back_tab, line_tab, mark_column, mark_line, clear_columns, clear_lines, cleared};

use crate::state::State;
use crate::stops::Stops;
use control::function::Clearing;
use std::array;

fn is_first_stop(k: usize) -> bool
    ensures { result ≡ first_stop k }
{
    1 <= k && k % 8 == 0
}

impl<const N: usize> Stops<N> {
    // A stop at every eighth place after the first.
    pub(crate) fn every_eighth() -> Stops<N>
        ensures { result.flags ≡ map first_stop (range_with_len 0 N) }
    {
        Stops {
            flags: array::from_fn(is_first_stop),
        }
    }
}

// The place of the `n`-th stop after a place, else the last.
fn next_stop(stops: &[bool], after: u16, n: u16) -> u16
    requires few { length stops.now < 2 ^ 16 }
    requires before { after ≤ length stops.now }
    ensures { result ≡ next_stop n (after + 1) (drop after stops.now) (length stops.now) }
{
    let mut left = n;
    for (i, stop) in stops[after as usize..].iter().enumerate() {
        if *stop {
            if left <= 1 {
                return after + i as u16 + 1;
            }
            left -= 1;
        }
    }
    stops.len() as u16
}

// The place of the `n`-th stop among the first `count`, from the last back, else the first column. Counted, as the definition counts:
// the stops from there on are the page's too.
fn previous_stop(stops: &[bool], count: u16, n: u16, first: u16) -> u16
    requires { count ≤ length stops.now }
    ensures { result ≡ previous_stop n stops.now count first }
{
    let mut left = n;
    let mut rest = &stops[..count as usize];
    while let Some((stop, front)) = rest.split_last() {
        if *stop {
            if left <= 1 {
                return rest.len() as u16;
            }
            left -= 1;
        }
        rest = front;
    }
    first
}

// Columns and lines have fields and moves of their own; what they share is in `Stops` and the two searches.
impl State {
    pub(crate) fn tab(&mut self, n: u16)
        ensures { state_of self.new ≡ tab n (state_of self.old) }
    {
        let stops = self.column_stops.of_first(self.size.columns);
        let column = next_stop(stops, self.position.column, n);
        self.to_column(column);
    }

    pub(crate) fn back_tab(&mut self, n: u16)
        ensures { state_of self.new ≡ back_tab n (state_of self.old) }
    {
        let stops = self.column_stops.of_first(self.size.columns);
        let column = previous_stop(stops, self.position.column - 1, n, self.first_column());
        self.to_column(column);
    }

    pub(crate) fn line_tab(&mut self, n: u16)
        ensures { state_of self.new ≡ line_tab n (state_of self.old) }
    {
        let stops = self.line_stops.of_first(self.size.lines);
        let line = next_stop(stops, self.position.line, n);
        self.to_line(line);
    }

    // Sets or clears the character stop at the active column.
    #[tactic(auto, using(crate::proofs::Flags::take_set_in))]
    pub(crate) fn mark_column(&mut self, stop: bool)
        ensures { state_of self.new ≡ mark_column stop (state_of self.old) }
    {
        self.column_stops.mark(self.position.column, stop);
    }

    // Sets or clears the line stop at the active line.
    #[tactic(auto, using(crate::proofs::Flags::take_set_in))]
    pub(crate) fn mark_line(&mut self, stop: bool)
        ensures { state_of self.new ≡ mark_line stop (state_of self.old) }
    {
        self.line_stops.mark(self.position.line, stop);
    }

    fn clear_columns(&mut self)
        ensures { state_of self.new ≡ clear_columns (state_of self.old) }
    {
        self.column_stops = Stops::none();
    }

    fn clear_lines(&mut self)
        ensures { state_of self.new ≡ clear_lines (state_of self.old) }
    {
        self.line_stops = Stops::none();
    }

    // TBC.
    pub(crate) fn clear(&mut self, which: Clearing)
        ensures { state_of self.new ≡ cleared which (state_of self.old) }
    {
        match which {
            Clearing::ColumnStop => self.mark_column(false),
            Clearing::LineStop => self.mark_line(false),
            Clearing::AllColumnStops => self.clear_columns(),
            Clearing::AllLineStops => self.clear_lines(),
            Clearing::AllStops => {
                self.clear_columns();
                self.clear_lines();
            }
        }
    }
}
