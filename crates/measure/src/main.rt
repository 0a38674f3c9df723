// The job program: runs a job on a fresh package and prints the answers of its lines. Document 01, 'Job files'.
//
// Its buffers are arrays on the stack, whose size ./measure says and tests/jobs tries: no memory can run out while it runs.
#![tactic(auto)]

ghost use Rattle.std.specs.Prelude.{◌≡◌, ◌≢◌, IfErr, IsErrOf};
ghost use Rattle.job_limits.specs.JobRules.{job_refusal};
ghost use Rattle.job_report.specs.Causes.{cause};

use area::AREA;
use file_input::read_full;
use fresh_area::fresh;
use job_limits::{JOB_LIMIT, LINE_ROOM, LINES_LIMIT};
use job_report::{JobError, say, say_of_file};
use jobs::run_job;
use std::env::{Env, FillError};
use std::fs::File;
use std::rt::Files;
use std::{io, str};

// One byte more than a job may have, so that a longer one is seen.
const READ: usize = JOB_LIMIT + 1;

// As much as any job may need: refusal 1 cannot occur.
const ROOM: usize = LINE_ROOM * LINES_LIMIT;

// The most bytes of a name.
const NAME: usize = 4_096;

// A job that is refused is told its own cause; one that ran fails only where its answers cannot be written.
fn print_answers(rt: &impl Print, job: &[u8]) -> Result<(), JobError>
    ensures refused { job_refusal job.now ROOM ≢ 0 → IsErrOf result (cause job.now) }
    ensures ran { job_refusal job.now ROOM ≡ 0 → IfErr result (λ e. e ≡ JobError.Unwritten) }
{
    let mut area = [0i32; AREA];
    let _ = fresh(&mut area);
    let mut output = [0u8; ROOM];
    let Ok(length) = run_job(&mut area, job, &mut output) else {
        return Err(JobError::refused(job));
    };
    rt.write_all(&output[..length])
        .map_err(|_| JobError::Unwritten)
}

fn run_file(rt: &(impl Files + Print), name: &[u8]) -> Result<(), JobError> {
    let mut file = File::open(rt, str::from_utf8(name)?)?;
    let mut job = [0u8; READ];
    let size = read_full(&mut file, &mut job)?;
    print_answers(rt, &job[..size])
}

// The name of the job file, where the arguments are one name or none.
fn name_given<'a>(rt: &impl Env, room: &'a mut [u8; NAME]) -> Result<&'a [u8], JobError> {
    if !matches!(rt.arg(2, &mut []), Err(FillError::NotPresent)) {
        return Err(JobError::WrongArguments);
    }
    match rt.arg(1, room) {
        Err(FillError::NotPresent) => Ok(b"job.txt"),
        Err(FillError::TooLong) => Err(JobError::LongName),
        Ok(0) => Err(JobError::NoName),
        Ok(length) => Ok(&room[..length]),
    }
}

fn main(rt: HostRuntime) -> io::Result<()> {
    let errors = rt.stderr();
    let mut room = [0u8; NAME];
    match name_given(&rt, &mut room) {
        Err(e) => say(&errors, e),
        Ok(name) => match run_file(&rt, name) {
            Err(e) => say_of_file(&errors, name, e),
            Ok(()) => Ok(()),
        },
    }
}
