// Reads a stream into a lent buffer, as the programs read standard input.
#![tactic(auto)]

ghost use Rattle.std.specs.Prelude.{◌≡◌, ◌≤◌, ◌<◌, ◌^◌, ℕ, length, replicate, take};
ghost use Rattle.std.specs.Io.KnownBytes.{Consumes};

use std::io;
use std::io::Read;

#[cfg(test)]
mod tests;

// N zeros. A function of its own, so that no proof about a caller has to spell them out.
pub fn zeros<const N: usize>() -> [u8; N]
    ensures length { N ≡ length result }
    ensures all { result ≡ replicate N 0 }
{
    [0; N]
}

// Reads until `buf` is full or the input ends, and gives how many bytes it put at the start of `buf`. A read that fails counts
// as the end. It reads nothing past the buffer's length.
pub fn read_full<R: Read>(reader: &mut R, buf: &mut [u8]) -> usize
    ensures within { result ≤ length buf.new }
    ensures bytes { Consumes (R.remaining reader.old) (R.remaining reader.new) (take result buf.new) }
{
    let mut done = 0;
    while done < buf.len() {
        match reader.read(&mut buf[done..]) {
            Ok(0) | Err(_) => return done,
            Ok(n) => done += n,
        }
    }
    done
}

// Prints what `answer` writes of the text to the start of `out`; its result is how many bytes that is.
pub fn respond<P: Print, F: Fn(&[u8], &mut [u8]) -> usize>(
    rt: &P,
    text: &[u8],
    out: &mut [u8],
    answer: &F,
) -> io::Result<()>
    requires callable { F.IsAlwaysCallable answer.now }
    requires within { (t : _) (o : _) (r : ℕ) (left : _) → F.post answer.now t o r left → r ≤ length left.now }
{
    let r = answer(text, out);
    rt.write_all(&out[..r])
}

// A program that reads INPUT bytes of its input at most, and prints what `answer` writes of them, in room for no more than
// `room_for` says, and LONGEST bytes at most. What cannot be written is lost.
pub fn serve<
    const INPUT: usize,
    const LONGEST: usize,
    R: Read,
    P: Print,
    G: Fn(usize) -> usize,
    F: Fn(&[u8], &mut [u8]) -> usize,
>(reader: &mut R, rt: &P, room_for: G, answer: F)
    requires input { INPUT < 2 ^ 63 }
    requires longest { LONGEST < 2 ^ 63 }
    requires room { G.IsAlwaysCallable room_for }
    requires callable { F.IsAlwaysCallable answer }
    requires within { (t : _) (o : _) (r : ℕ) (left : _) → F.post answer t o r left → r ≤ length left.now }
{
    let mut input: [u8; INPUT] = zeros();
    let n = read_full(reader, &mut input);
    let text = &input[..n];
    // To clear the longest buffer takes longer than to answer a short input.
    if room_for(n) <= 65536 {
        let mut out: [u8; 65536] = zeros();
        let _ = respond(rt, text, &mut out, &answer);
        return;
    }
    let mut out: [u8; LONGEST] = zeros();
    let _ = respond(rt, text, &mut out, &answer);
}
