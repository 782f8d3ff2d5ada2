// Numbers drawn one after another.

ghost use Rattle.std.specs.Prelude.{◌≡◌};
ghost use Rattle.ac_make.specs.Draws.{next_state, drawn};

const MULTIPLIER: u64 = 6364136223846793005;

const INCREMENT: u64 = 1442695040888963407;

/// Draws from a seed.
#[derive(Drop)]
pub struct Draws {
    pub state: u64,
}

impl Draws {
    /// The draws from this seed.
    pub fn new(seed: u64) -> Draws
        ensures { result.state ≡ seed }
    {
        Draws { state: seed }
    }

    /// The next number.
    pub fn draw(&mut self) -> u64
        ensures state { self.new.state ≡ next_state self.old.state }
        ensures value { result ≡ drawn self.new.state }
    {
        self.state = self.state.wrapping_mul(MULTIPLIER).wrapping_add(INCREMENT);
        self.state >> 33
    }
}
