ghost use Rattle.std.specs.Prelude.{◌≡◌, ◌<◌};
ghost use Rattle.fickle.specs.Drawing.{drawn, next};

// A fixed sequence of numbers: the same seed gives the same draws.
#[derive(Clone, Copy, PartialEq, Eq, Debug)]
pub struct Draws {
    seed: u32,
}

impl Draws {
    pub fn new(seed: u32) -> Draws
        ensures { result.seed ≡ seed }
    {
        Draws { seed }
    }

    // The next draw, below this end.
    pub fn below(&mut self, end: u32) -> u32
        requires { 0 < end }
        ensures drawn { result ≡ drawn self.old.seed end }
        ensures next { self.new.seed ≡ next self.old.seed }
    {
        self.seed = self.seed.wrapping_mul(1664525).wrapping_add(1013904223);
        // the low bits of such a sequence repeat soon
        (self.seed >> 16) % end
    }
}
