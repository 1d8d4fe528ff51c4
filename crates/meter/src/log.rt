// Eight times the base-2 logarithm, rounded down (docs/SPECIFICATION.md §10.2).
ghost use Rattle.std.specs.Prelude.{◌≡◌, ◌+◌, ◌^◌, ◌≤◌, ◌<◌};
ghost use Rattle.meter.specs.Log.{Eighths};

// n to the eighth power. 255 to the eighth is below 2 to the power 64; 256 to the eighth is not.
fn eighth_power(n: u64) -> u64
    requires { n ≤ 255 }
    ensures { result ≡ n ^ 8 }
{
    let second = n * n;
    let fourth = second * second;
    fourth * fourth
}

// The place, counted from 0, of the highest one bit. 0 has none.
fn highest_one(x: u64) -> u64
    requires { 1 ≤ x }
    ensures { (2 ^ result ≤ x) × (x < 2 ^ (result + 1)) }
{
    63 - u64::leading_zeros(x) as u64
}

// g(n). Internal: `measure` has tested the number of stretches, and 0 has no logarithm.
pub fn eighths(n: u64) -> u64
    requires { (1 ≤ n) × (n ≤ 255) }
    ensures { Eighths n result }
{
    highest_one(eighth_power(n))
}
