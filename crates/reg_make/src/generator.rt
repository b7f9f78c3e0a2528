ghost use Rattle.std.specs.Prelude.{◌≡◌};
ghost use Rattle.reg_make.specs.Generator.{next_number};

// Knuth's linear congruential generator of 64 bits (that of MMIX).
const FACTOR: u64 = 6364136223846793005;

const STEP: u64 = 1442695040888963407;

/// The numbers behind a seed, one after the other.
#[derive(Debug, Drop)]
pub struct Generator {
    pub state: u64,
}

impl Generator {
    /// Begins with a seed, which is not itself one of the numbers.
    pub fn new(seed: u64) -> Generator
        ensures { result.state ≡ seed }
    {
        Generator { state: seed }
    }

    /// The next number.
    pub fn next(&mut self) -> u64
        ensures value { result ≡ next_number self.old.state }
        ensures state { self.new.state ≡ next_number self.old.state }
    {
        let next = self.state.wrapping_mul(FACTOR).wrapping_add(STEP);
        self.state = next;
        next
    }
}
