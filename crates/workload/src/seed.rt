// The seed that an input is: one line, a number (docs/WORKLOAD.md).
ghost use Rattle.std.specs.Prelude.{◌≡◌};
ghost use Rattle.workload.specs.Trial.{seed_of};

use decimal::read::read_number;
use lines::read::place;

#[tactic(auto, using(crate::specs::Seed::seed_cases))]
pub fn read_seed(input: &[u8]) -> Option<u32>
    ensures { result ≡ seed_of input.now }
{
    let e = place(input, b'\n')?;
    if e + 1 < input.len() {
        return None;
    }
    read_number(&input[..e])
}
