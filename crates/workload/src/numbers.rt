// The numbers of a seed (docs/WORKLOAD.md).
ghost use Rattle.std.specs.Prelude.{◌≡◌};
ghost use Rattle.workload.specs.Numbers.{next_of};

// The number after x.
pub fn next(x: u32) -> u32
    ensures { result ≡ next_of x }
{
    1664525u32.wrapping_mul(x).wrapping_add(1013904223)
}
