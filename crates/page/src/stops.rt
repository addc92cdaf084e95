// Character and line stops.
ghost use Rattle.std.specs.Prelude.{◌≡◌, ◌-◌, ◌≤◌, false, length, replicate, take, slice_set};

// A flag for each column or line, counted from 0. An array, since nothing is allocated.
#[derive(Clone, Copy)]
pub struct Stops<const N: usize> {
    pub(crate) flags: [bool; N],
    ghost all: { length flags ≡ N },
}

impl<const N: usize> Stops<N> {
    pub(crate) fn none() -> Stops<N>
        ensures { result.flags ≡ replicate N false }
    {
        Stops { flags: [false; N] }
    }

    // The flags of the places that a page has.
    pub(crate) fn of_first(&self, count: u16) -> &[bool]
        requires { count ≤ N }
        ensures { result.now ≡ take count self.now.flags }
    {
        &self.flags[..count as usize]
    }

    // Sets or clears the stop at a place, counted from 1.
    pub(crate) fn mark(&mut self, place: u16, stop: bool)
        requires from { 1 ≤ place }
        requires to { place ≤ N }
        ensures { self.new.flags ≡ slice_set self.old.flags (place - 1) stop }
    {
        self.flags[place as usize - 1] = stop;
    }
}
