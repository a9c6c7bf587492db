// The source that makes draws from a seed, by shifts.
ghost use Rattle.std.specs.Prelude.{◌≡◌, ◌<◌, ◌≤◌};
ghost use Rattle.pile.specs.Answers.{told_by};
ghost use Rattle.sources.specs.Answers.{seed_fault_number};
ghost use Rattle.sources.specs.Generators.{step, scaled, generator_course, seed_rule, taken_seed};

use crate::faults::{SeedFault, SourceFault};
use crate::records::is_lawful_radix;
use crate::source::Source;

// A 64-bit state, never 0.
#[derive(Drop)]
pub struct Generator {
    state: u64,
    ghost some: { 0 < state },
}

// Is the seed other than 0?
pub fn ask_seed(seed: u64) -> Result<u64, SeedFault>
    ensures { told_by seed_fault_number result ≡ seed_rule seed }
{
    (seed != 0).then_some(seed).ok_or(SeedFault::Zero)
}

fn stepped(state: u64) -> u64
    requires { 0 < state }
    ensures value { result ≡ step state }
    ensures some { 0 < result }
{
    let x = state ^ (state << 13);
    let x = x ^ (x >> 7);
    x ^ (x << 17)
}

// The upper 32 bits, brought below the radix.
fn scaled_to(state: u64, radix: u16) -> u16
    requires { 1 ≤ radix }
    ensures value { result ≡ scaled state radix }
    ensures below { result < radix }
{
    let upper = state >> 32;
    ((upper * u64::from(radix)) >> 32) as u16
}

impl Generator {
    // A new generator; the seed 0 counts as 1.
    pub fn new(seed: u64) -> Generator
        ensures { result.state ≡ taken_seed seed }
    {
        Generator { state: seed.max(1) }
    }
}

impl Source for Generator {
    ghost course = { λ g. generator_course g.state };

    fn draw(&mut self, radix: u16) -> Result<u16, SourceFault> {
        if !is_lawful_radix(radix) {
            return Err(SourceFault::Radix(0));
        }
        self.state = stepped(self.state);
        Ok(scaled_to(self.state, radix))
    }
}
