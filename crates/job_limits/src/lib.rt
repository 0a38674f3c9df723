// Why a job does not run. Document 01, 'Alarm numbers'.
#![tactic(auto)]

ghost use Rattle.std.specs.Prelude.{◌≡◌};
ghost use Rattle.package.specs.Refusals.{refusal_in};
ghost use Rattle.job_limits.specs.JobRules.{job_refusal};

use line_counts::count_lines;
use package::refusals::Refusal;
use text::LINE_FEED;

// The most bytes and lines of a job, and the bytes of output that it needs for each line.
pub const JOB_LIMIT: usize = 65_536;

pub const LINES_LIMIT: usize = 1_000;

pub const LINE_ROOM: usize = 40;

// Whether a job runs with room for so many bytes of output, and why it does not.
pub fn check_job(job: &[u8], room: usize) -> Result<(), Refusal>
    ensures { refusal_in result ≡ job_refusal job.now room }
{
    let Some(last) = job.last() else {
        return Err(Refusal::EmptyJob);
    };
    if JOB_LIMIT < job.len() {
        return Err(Refusal::WrongJob);
    }
    if *last != LINE_FEED {
        return Err(Refusal::WrongJob);
    }
    let lines = count_lines(job);
    if LINES_LIMIT < lines {
        return Err(Refusal::WrongJob);
    }
    if room < LINE_ROOM * lines {
        return Err(Refusal::NoRoom);
    }
    Ok(())
}
