// Panels whose cells are erased line by line: of those a run of cells goes over several lines.
ghost use Rattle.std.specs.Prelude.{◌≡◌, ◌+◌, ◌*◌, ◌≤◌};
ghost use Rattle.panel.specs.Grids.{InLine};
ghost use Rattle.panel.specs.Screens.{Screen, Sound, wipe_on};

// Not a trait above `Panel`, and so with its own word for what is shown: the calls of `Panel` go through it, a circle of calls.
pub(crate) trait Lines {
    // What the panel shows, which is sound.
    ghost seen: { Self → Screen };

    ghost seen_sound: { (p : Self) → Sound (seen p) };

    // How many columns it has.
    fn columns(&self) -> usize
        ensures { result ≡ (seen self.now).grid.columns };

    // Erases `count` cells of one line, from their index in reading order.
    fn erase_in_line(&mut self, at: usize, count: usize)
        requires { InLine (seen self.old).grid at count }
        ensures { seen self.new ≡ wipe_on (seen self.old) at count };

    // Erases `count` cells from an index in reading order, one line after another.
    fn erase_from(&mut self, at: usize, count: usize)
        requires { at + count ≤ (seen self.old).grid.lines * (seen self.old).grid.columns }
        ensures { seen self.new ≡ wipe_on (seen self.old) at count }
    {
        if count == 0 {
            return;
        }
        let columns = self.columns();
        let end = at + count;
        for line in at / columns..end.div_ceil(columns) {
            let from = at.max(line * columns);
            let to = end.min((line + 1) * columns);
            self.erase_in_line(from, to - from);
        }
    }
}
