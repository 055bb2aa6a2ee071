//! Numbers in a fixed order that looks random.
ghost use Rattle.std.specs.Prelude.{◌<◌};

/// The next number follows from the last one.
#[derive(Drop)]
pub(crate) struct Numbers {
    last: u64,
}

impl Numbers {
    pub(crate) fn new() -> Numbers {
        Numbers { last: 1 }
    }

    /// The next number, brought below a bound.
    pub(crate) fn below(&mut self, bound: u32) -> u32
        requires { 0 < bound }
        ensures { result < bound }
    {
        self.last = (self.last % (1 << 31) * 1_103_515_245 + 12_345) % (1 << 31);
        (self.last / 256 % bound as u64) as u32
    }
}
