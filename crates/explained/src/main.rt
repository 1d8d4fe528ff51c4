// Answers the table and the calls on standard input as `shuffle` does, and explains each choice (docs/EXPLANATIONS.md).
#![tactic(auto)]

ghost use Rattle.std.specs.Prelude.{◌≡◌, ◌≤◌, length};
ghost use Rattle.transcript.specs.Transcript.{input_limit};

use std::io;

// A function of its own, so that no proof about `main` has to spell out its zeros. Each word takes four bytes of the input.
// `stream::zeros` gives bytes. One over any element would need a law about the element's zero, and be no plainer.
fn no_words() -> [u32; 16384] {
    [0; 16384]
}

// A function of its own. With `stream::zeros()` in `main`: tried, and the proof of what `answer` requires did not close.
fn buffer() -> [u8; 65536]
    ensures { 65536 ≡ length result }
{
    stream::zeros()
}

// The output is longer than the buffer, so it is written a part at a time. Where a part cannot be written, no more is.
fn answer(rt: &impl Print, text: &[u8], words: &mut [u32], out: &mut [u8]) -> io::Result<()>
    requires { (length text.now ≤ input_limit) × (length words.old ≡ 16384) × (2037 ≤ length out.old) }
{
    let mut t = narration::begin(text, out);
    let mut end = t.play.end;
    rt.write_all(&out[..end])?;
    while !t.play.over {
        t = narration::more(text, t, words, out);
        end = t.play.end;
        rt.write_all(&out[..end])?;
    }
    Ok(())
}

// What cannot be written is lost.
fn main(rt: HostRuntime) {
    let mut input = buffer();
    let n = stream::read_full(&mut rt.stdin(), &mut input);
    let text = &input[..n];
    let mut words = no_words();
    let mut out = buffer();
    let _ = answer(&rt, text, &mut words, &mut out);
}
