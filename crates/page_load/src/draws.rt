// The numbers that the load is drawn from.
ghost use Rattle.std.specs.Prelude.{◌≡◌, ◌+◌, ◌*◌, ◌/◌, ◌%◌, ◌<◌};

// A fixed sequence of numbers: the same seed gives the same draws.
#[derive(Clone, Copy)]
pub struct Draws {
    seed: u64,
    ghost within: { seed < 2147483648 },
}

impl Draws {
    pub fn new(seed: u64) -> Draws
        requires { seed < 2147483648 }
        ensures { result.seed ≡ seed }
    {
        Draws { seed }
    }

    // The next draw, below this end.
    pub fn below(&mut self, end: u64) -> u64
        requires { 0 < end }
        ensures next { self.new.seed ≡ (self.old.seed * 1103515245 + 12345) % 2147483648 }
        ensures drawn { result ≡ self.new.seed / 65536 % end }
        ensures below { result < end }
    {
        self.seed = (self.seed * 1103515245 + 12345) % 2147483648;
        // the low bits of such a sequence repeat soon
        self.seed / 65536 % end
    }
}
