// The values of the measures.
ghost use Rattle.std.specs.Prelude.{◌<◌, ◌^◌};

// A number of nodes, or a sum of such numbers, modulo 2^64.
#[derive(Clone, Copy, Debug, PartialEq, Eq)]
pub struct Size {
    pub total: u64,
    ghost fits: { total < 2 ^ 64 },
}

// The greatest depth.
#[derive(Clone, Copy, Debug, PartialEq, Eq)]
pub struct Reach {
    pub depth: usize,
}
