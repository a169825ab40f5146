// Many series in one call (document 02): jobs over one pair of lists, each on its own stretch of them and of the output.
#![tactic(auto)]

ghost use Rattle.std.specs.Prelude.{◌≡◌, ℕ, List, length};
ghost use Rattle.series.specs.Results.{Result as Outcome};
ghost use Rattle.series.specs.Outputs.{lent};
ghost use Rattle.series.specs.Answers.{Allocation, outcome_of, status_of};
ghost use Rattle.answer_numbers.specs.Numbers.{numbers_mean, handed_numbers};
ghost use Rattle.jobs.specs.Jobs.{jobs_verdict, job_answer, job_output, recorded, JobsCall};
ghost use Rattle.jobs.specs.Turns.{next_end, last_end, Measured, InPlace, AllInPlace, JobDone, JobsDone};
ghost use Rattle.jobs.specs.declared.Job.{Job as Job·};

use answer_numbers::{Numbers, numbers_of};
use series::{AccountList, Contracts, MOST_POSITIONS, Refusal, Series, terms_of};
use text_words::letters::method_by;

// At most so many jobs.
const MOST_JOBS: usize = 64;

// What a job hands back, in numbers that C reads: 0, T and the further number, or the number of its refusal, and then the other two are kept.
#[repr(C)]
#[derive(Clone, Copy, Debug, PartialEq, Eq)]
pub struct JobAnswer {
    pub refusal: u32,
    pub total: u32,
    pub further: u32,
}

// One job, in numbers that C writes: its first position counted from 0, its number of positions, the letter of its method, S, the draw, the increment, and a field for the answer.
#[repr(C)]
#[derive(Clone, Copy, Debug, PartialEq, Eq)]
pub struct Job {
    pub first: u32,
    pub positions: u32,
    pub method: u8,
    pub exercised: u32,
    pub draw: u32,
    pub increment: u32,
    pub answer: JobAnswer,
}

// The allocating call of a job on lists and an output of its own, with the accounts as codes.
#[tactic(auto, unfolding(crate::specs::Jobs::job_answer, crate::specs::Jobs::job_output, answer_numbers::specs::Numbers::handed_numbers))]
fn call_job(job: &Job, list: &AccountList, amounts: &mut [u32]) -> Result<Numbers, Refusal>
    ensures answered { numbers_mean result ≡ handed_numbers (job_answer job.now list.now.accounts.now list.now.shorts.now (length amounts.old)) }
    ensures written { amounts.new ≡ job_output job.now list.now.accounts.now list.now.shorts.now amounts.old }
{
    let Some(method) = method_by(job.method) else {
        return Err(Refusal::UnknownMethod);
    };
    let terms = terms_of(
        method,
        Contracts(job.exercised),
        job.draw,
        Contracts(job.increment),
    );
    let series = Series {
        terms,
        positions: list.positions(),
    };
    numbers_of(allocation::allocate(&series, amounts))
}

// What the field for the answer holds after a call; a refusal keeps T and the further number that stood there.
#[tactic(auto, unfolding(crate::specs::Jobs::recorded, answer_numbers::specs::Numbers::handed_numbers))]
fn recorded(kept: JobAnswer, outcome: Result<Numbers, Refusal>) -> JobAnswer
    ensures { (a : Outcome Allocation) → numbers_mean outcome ≡ handed_numbers a → result ≡ recorded a kept }
{
    match outcome {
        Ok(numbers) => JobAnswer {
            refusal: 0,
            total: numbers.total,
            further: numbers.further,
        },
        Err(refusal) => JobAnswer {
            refusal: u32::from(refusal),
            ..kept
        },
    }
}

// One job on its stretch of the lists, its part of the output lent on: the record with its answer.
fn run_job(list: &AccountList, job: Job, amounts: &mut [u32]) -> Job
    requires { InPlace job list.now.accounts.now list.now.shorts.now amounts.old }
    ensures { JobDone job list.now.accounts.now list.now.shorts.now result amounts.old amounts.new }
{
    let first = job.first as usize;
    let end = first + job.positions as usize;
    let stretch = AccountList {
        accounts: &list.accounts[first..end],
        shorts: &list.shorts[first..end],
    };
    let outcome = call_job(&job, &stretch, &mut amounts[first..end]);
    Job {
        answer: recorded(job.answer, outcome),
        ..job
    }
}

// Every job in turn.
fn run_jobs(list: &AccountList, jobs: &mut [Job], amounts: &mut [u32])
    requires { AllInPlace jobs.old list.now.accounts.now list.now.shorts.now amounts.old }
    ensures { JobsDone list.now.accounts.now list.now.shorts.now (lent jobs.old jobs.new) (lent amounts.old amounts.new) }
{
    for job in jobs.iter_mut() {
        *job = run_job(list, *job, amounts);
    }
}

// Where the stretch of a job ends, after one that ended at `end`; none where it begins before that.
fn next_end(job: Job, end: usize) -> Option<usize>
    ensures { result ≡ next_end job end }
{
    let first = job.first as usize;
    if first < end {
        return None;
    }
    Some(first + job.positions as usize)
}

// Where the last stretch ends; none where one begins before the previous one ended.
#[tactic(auto, using(crate::proofs::Ends::goes_on, crate::proofs::Ends::stops, crate::proofs::Ends::ends))]
fn last_end(jobs: &[Job]) -> Option<usize>
    ensures { result ≡ last_end jobs.now 0 }
{
    let mut end = 0;
    for job in jobs {
        end = next_end(*job, end)?;
    }
    Some(end)
}

// The refusals before any job, by the lengths and the end of the last stretch.
#[tactic(auto, using(crate::proofs::JudgeLaws::laid_by_end, std::proofs::lemmas::Bool::Decides::nat_tests), unfolding(crate::specs::Jobs::jobs_verdict, crate::specs::Jobs::jobs_rows, series::specs::Refusals::first))]
fn judge(
    accounts: usize,
    shorts: usize,
    amounts: usize,
    jobs: usize,
    end: Option<usize>,
) -> Result<(), Refusal>
    ensures { (given held : List ℕ) (js : List Job·) → Measured given held js accounts shorts jobs end → outcome_of (λ _. tt) result ≡ jobs_verdict given held js amounts }
{
    if accounts != shorts {
        return Err(Refusal::LengthsDiffer);
    }
    if MOST_POSITIONS < shorts {
        return Err(Refusal::TooManyPositions);
    }
    if amounts < shorts {
        return Err(Refusal::OutputTooShort);
    }
    if MOST_JOBS < jobs {
        return Err(Refusal::TooManyJobs);
    }
    match end {
        Some(end) if end <= shorts => Ok(()),
        _ => Err(Refusal::StretchMisplaced),
    }
}

// Allocates every job, or refuses before any: then records and amounts are kept.
#[tactic(auto, using(crate::proofs::JobsCallLaws::in_place, crate::proofs::JobsCallLaws::answers))]
pub fn allocate_jobs(
    list: &AccountList,
    jobs: &mut [Job],
    amounts: &mut [u32],
) -> Result<(), Refusal>
    ensures { JobsCall list.now.accounts.now list.now.shorts.now (status_of result) (lent jobs.old jobs.new) (lent amounts.old amounts.new) }
{
    let end = last_end(jobs);
    judge(
        list.accounts.len(),
        list.shorts.len(),
        amounts.len(),
        jobs.len(),
        end,
    )?;
    run_jobs(list, jobs, amounts);
    Ok(())
}
