// A line of the input as text, written into a lent buffer from a place on; the answer is the place past it. What `read::next_line`
// reads of it is the line again. Internal: whoever calls these has seen to the room.
ghost use Rattle.std.specs.Prelude.{◌+◌, ◌≤◌, length};
ghost use Rattle.decimal.specs.Buffer.{Wrote};
ghost use Rattle.lines.specs.Input.{bare_text, single_text, call_text, row_text, input_line};

use crate::read::{Call, Line};
use crate::write::put_letter;
use decimal::write::{put_byte, put_number};

fn put_bare(out: &mut [u8], at: usize, letter: u8) -> usize
    requires { at + 2 ≤ length out.old }
    ensures { Wrote 2 (bare_text letter) out.old out.new at result }
{
    let e = put_byte(out, at, letter);
    put_byte(out, e, b'\n')
}

fn put_single(out: &mut [u8], at: usize, letter: u8, n: u32) -> usize
    requires { at + 23 ≤ length out.old }
    ensures { Wrote 23 (single_text letter n) out.old out.new at result }
{
    let e = put_letter(out, at, letter);
    put_number(out, e, n as u64, b'\n')
}

fn put_call(out: &mut [u8], at: usize, c: Call) -> usize
    requires { at + 23 ≤ length out.old }
    ensures { Wrote 23 (call_text c) out.old out.new at result }
{
    match c {
        Call::Arrive(row) => put_single(out, at, b'A', row),
        Call::Choose => put_bare(out, at, b'G'),
        Call::Advance(n) => put_single(out, at, b'R', n),
        Call::Finish => put_bare(out, at, b'F'),
    }
}

fn put_row(out: &mut [u8], at: usize, run: u32, period: u32, deadline: u32) -> usize
    requires { at + 65 ≤ length out.old }
    ensures { Wrote 65 (row_text run period deadline) out.old out.new at result }
{
    let e = put_letter(out, at, b'T');
    let f = put_number(out, e, run as u64, b'\t');
    let g = put_number(out, f, period as u64, b'\t');
    put_number(out, g, deadline as u64, b'\n')
}

// Internal: the caller has seen to the room for the longest line.
pub fn put_input(out: &mut [u8], at: usize, line: Line) -> usize
    requires { at + 65 ≤ length out.old }
    ensures { Wrote 65 (input_line line) out.old out.new at result }
{
    match line {
        Line::Row {
            run,
            period,
            deadline,
        } => put_row(out, at, run, period, deadline),
        Line::Word(w) => put_single(out, at, b'W', w),
        Line::Call(c) => put_call(out, at, c),
        Line::Empty => put_byte(out, at, b'\n'),
        Line::Unreadable => put_bare(out, at, b'?'),
    }
}
