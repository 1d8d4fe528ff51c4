// Text written into a lent buffer from a place on; each function answers the place past what it wrote. Internal: whoever
// calls them has seen to the room, as `transcript` does once for a whole text.
ghost use Rattle.std.specs.Prelude.{◌≡◌, ◌+◌, ◌≤◌, ◌<◌, [], ◌∷◌, ◌++◌, length};
ghost use Rattle.decimal.specs.Decimal.{decimal};
ghost use Rattle.decimal.specs.Buffer.{Wrote};

// Internal: the caller has seen to the room for one byte.
#[tactic(auto, using(crate::specs::Buffer::wrote_byte))]
pub fn put_byte(out: &mut [u8], at: usize, b: u8) -> usize
    requires { at < length out.old }
    ensures { Wrote 1 (b ∷ []) out.old out.new at result }
{
    out[at] = b;
    at + 1
}

// How many digits n has.
#[tactic(auto, using(crate::specs::Written::count_cases))]
fn digits_in(n: u64) -> usize
    ensures { result ≡ length (decimal n) }
{
    match n.checked_ilog10() {
        Some(k) => k as usize + 1,
        None => 1,
    }
}

// From the last digit to the first. It is no recursion, so that the stack that a call takes can be read off its machine code.
// No `for i in (at + 1..e).rev()`: the quotient that the body needs says as plainly where the digits end.
#[tactic(auto, using(crate::specs::Written::filling_laws))]
fn put_digits(out: &mut [u8], at: usize, n: u64) -> usize
    requires { at + length (decimal n) ≤ length out.old }
    ensures { Wrote (length (decimal n)) (decimal n) out.old out.new at result }
{
    let e = at + digits_in(n);
    let mut rest = n;
    let mut i = e;
    while 10 <= rest {
        i -= 1;
        out[i] = b'0' + (rest % 10) as u8;
        rest /= 10;
    }
    out[at] = b'0' + rest as u8;
    e
}

// A number and one byte after it: a tab or a newline. Internal: the caller has seen to the room for the longest number.
#[tactic(auto, using(crate::specs::Written::written_cases))]
pub fn put_number(out: &mut [u8], at: usize, n: u64, last: u8) -> usize
    requires { at + 21 ≤ length out.old }
    ensures { Wrote 21 (decimal n ++ last ∷ []) out.old out.new at result }
{
    let e = put_digits(out, at, n);
    put_byte(out, e, last)
}
