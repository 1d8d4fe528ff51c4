// A repeatable heavy load: from a seed to a text of 500 lines for `shuffle` (docs/WORKLOAD.md).
#![tactic(auto)]

ghost use Rattle.std.specs.Prelude.{◌≤◌, length};
ghost use Rattle.decimal.specs.Buffer.{Wrote};
ghost use Rattle.report.specs.Whole.{Filled};
ghost use Rattle.workload.specs.Trial.{trial_room, text_of, load_of};

use session::Session;

mod line;
pub mod numbers;
mod play;
mod rows;
pub mod seed;

// A buffer of this length holds every trial.
pub const LONGEST: usize = 32500;

// Every table of a seed is loose, so no opinion is asked for.
fn put_trial(seed: u32, out: &mut [u8]) -> usize
    requires { trial_room ≤ length out.old }
    ensures { Wrote trial_room (text_of seed) out.old out.new 0 result }
{
    let t = rows::put_rows(seed, out);
    let words = t.words;
    let count = t.count;
    let e = 3 * count;
    let session = Session::fresh(&words[..e], 1);
    play::put_calls(seed, session, count, out, t.at)
}

// Writes the trial of the seed to the start of `out`, and gives its length. A buffer shorter than `LONGEST` is left as it is, and the
// answer is 0.
pub fn generate(seed: u32, out: &mut [u8]) -> usize
    ensures { Filled trial_room (text_of seed) out.old out.new result }
{
    if out.len() < LONGEST {
        return 0;
    }
    put_trial(seed, out)
}

// The same for the seed that the input is. Where it is none, nothing is written, and the answer is 0.
pub fn load(input: &[u8], out: &mut [u8]) -> usize
    ensures { Filled trial_room (load_of input.now) out.old out.new result }
{
    match seed::read_seed(input) {
        Some(seed) => generate(seed, out),
        None => 0,
    }
}
