// The calls besides choose: a job arrives, the clock rises, the chosen job is over early (docs/SPECIFICATION.md §5.3, §5.5, §5.6).
#![tactic(auto)]

ghost use Rattle.std.specs.Prelude.{◌≡◌};
ghost use Rattle.session.specs.Calls.{over_job_lem};

pub mod advance;
pub mod arrive;
pub mod finish;

use session::Job;

// A row's job once it is over.
fn over_job(j: Job) -> Job
    ensures { result ≡ over_job_lem j }
{
    Job {
        next: j.next,
        due: 0,
        left: 0,
        budget: 0,
    }
}
