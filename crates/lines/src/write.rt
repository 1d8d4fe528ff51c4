// A line of the output, written into a lent buffer from a place on; the answer is the place past it. Internal: whoever
// calls these has seen to the room.
ghost use Rattle.std.specs.Prelude.{◌+◌, ◌≤◌, [], ◌∷◌, length};
ghost use Rattle.decimal.specs.Buffer.{Wrote};
ghost use Rattle.lines.specs.Text.{head_text, line_text};

use decimal::write::{put_byte, put_number};

// A letter and a tab. Internal: the caller has seen to the room.
pub fn put_letter(out: &mut [u8], at: usize, letter: u8) -> usize
    requires { at + 2 ≤ length out.old }
    ensures { Wrote 2 (letter ∷ 9 ∷ []) out.old out.new at result }
{
    let e = put_byte(out, at, letter);
    put_byte(out, e, b'\t')
}

// A line up to its second value, which may be signed. Internal: the caller has seen to the room for the longest.
pub fn put_head(out: &mut [u8], at: usize, clock: u64, letter: u8, number: u64, first: u64) -> usize
    requires { at + 65 ≤ length out.old }
    ensures { Wrote 65 (head_text clock letter number first) out.old out.new at result }
{
    let e = put_number(out, at, clock, b'\t');
    let f = put_letter(out, e, letter);
    let g = put_number(out, f, number, b'\t');
    put_number(out, g, first, b'\t')
}

// Internal: the caller has seen to the room for the longest line.
pub fn put_line(
    out: &mut [u8],
    at: usize,
    clock: u64,
    letter: u8,
    number: u64,
    first: u64,
    second: u64,
) -> usize
    requires { at + 86 ≤ length out.old }
    ensures { Wrote 86 (line_text clock letter number first second) out.old out.new at result }
{
    let e = put_head(out, at, clock, letter, number, first);
    put_number(out, e, second, b'\n')
}
