// Why the job program prints no answers, and one line on standard error that says what is wrong and what to do.
#![tactic(auto)]

ghost use Rattle.std.specs.Prelude.{◌≡◌};
ghost use Rattle.job_report.specs.Causes.{cause};

use job_limits::JOB_LIMIT;
use std::io;
use std::io::ErrorKind;
use std::str::Utf8Error;
use text::LINE_FEED;
use thiserror::Error;

#[derive(Clone, Copy, Debug, PartialEq, Eq, Error)]
pub enum JobError {
    #[error("refusal 11, the job is empty; write one call a line")]
    Empty,
    #[error("refusal 12, the job has over 65,536 bytes; split it")]
    TooLong,
    #[error("refusal 12, the last line has no end; add a line feed")]
    Unended,
    #[error("refusal 12, the job has over 1,000 lines; split it")]
    TooManyLines,
    #[error("there is no such file; name a job file")]
    NoSuchFile,
    #[error("this is a folder; name a job file")]
    Folder,
    #[error("no permission to read it; change that or copy the file")]
    NoPermission,
    #[error("it cannot be read; name a job file that can")]
    Unreadable,
    #[error("the answers could not be written; see where standard output goes")]
    Unwritten,
    #[error("give the name of one job file, or none for job.txt")]
    WrongArguments,
    #[error("the name has over 4,096 bytes; give a shorter one")]
    LongName,
    #[error("the name is empty; name a job file")]
    NoName,
}

impl JobError {
    // Why this job was refused by 11 or 12.
    pub fn refused(job: &[u8]) -> JobError
        ensures { result ≡ cause job.now }
    {
        let Some(last) = job.last() else {
            return JobError::Empty;
        };
        if JOB_LIMIT < job.len() {
            return JobError::TooLong;
        }
        if *last != LINE_FEED {
            return JobError::Unended;
        }
        JobError::TooManyLines
    }
}

// Why a file could not be read.
impl From<io::Error> for JobError {
    fn from(e: io::Error) -> JobError {
        match e.kind() {
            ErrorKind::NotFound => JobError::NoSuchFile,
            ErrorKind::IsADirectory => JobError::Folder,
            ErrorKind::PermissionDenied => JobError::NoPermission,
            _ => JobError::Unreadable,
        }
    }
}

// A name that is no text is that of no file.
impl From<Utf8Error> for JobError {
    fn from(_e: Utf8Error) -> JobError {
        JobError::Unreadable
    }
}

// What is said of the file with a name, which need not be text.
pub fn say_of_file(errors: &impl Print, name: &[u8], e: JobError) -> io::Result<()> {
    errors.print("measure: ")?;
    errors.write_all(name)?;
    println!(errors; ": {e}")
}

// What is said of the arguments. A function beside say_of_file, since both begin the line with the name of the program.
pub fn say(errors: &impl Print, e: JobError) -> io::Result<()> {
    println!(errors; "measure: {e}")
}
