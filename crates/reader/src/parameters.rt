ghost use Rattle.std.specs.Prelude.{◌≡◌, ◌-◌, ◌≤◌, drop, replicate, None};
ghost use Rattle.std.proofs.Props.{props};

// The parameters of a control sequence, in order: at most sixteen, each empty or a number up to 9,999.
// An array with a count beside it, as nothing is allocated and a reader, which holds it, is copied.
#[derive(Clone, Copy, Debug, PartialEq, Eq)]
pub struct Parameters {
    pub(crate) numbers: [Option<u16>; 16],
    pub(crate) count: usize,
    ghost within: { count ≤ 16 },
    // the slots that hold none are empty, so that equal parameters are equal values
    ghost unused: { drop count numbers ≡ replicate (16 - count) None } by { Prim.hlevel props },
}
