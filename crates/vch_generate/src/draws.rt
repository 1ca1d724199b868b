ghost use Rattle.std.specs.Prelude.{◌≡◌};
ghost use Rattle.vch_machine.specs.Schedules.{next_seed, drawn};

/// Numbers that are drawn from a seed, one after the other.
#[derive(Clone, Copy, Debug)]
pub struct Draws {
    pub seed: u64,
}

/// The seed behind another one, by a linear congruence modulo 2 to the 64.
fn next_seed(seed: u64) -> u64
    ensures { result ≡ next_seed seed }
{
    seed.wrapping_mul(6364136223846793005)
        .wrapping_add(1442695040888963407)
}

impl Draws {
    /// The next number, below 2 to the 31: the upper bits of the next seed.
    pub fn draw(&mut self) -> u64
        ensures result { result ≡ drawn self.new.seed }
        ensures seed { self.new.seed ≡ next_seed self.old.seed }
    {
        self.seed = next_seed(self.seed);
        self.seed >> 33
    }
}
