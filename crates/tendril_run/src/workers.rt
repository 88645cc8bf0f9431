//! A thread for each table.
ghost use Rattle.std.specs.Prelude.{◌≡◌, ◌≤◌, ◌+◌, [], IfOk, IfErr, IfSome, MatchOption, vec_len, vec_capacity};
ghost use Rattle.std.specs.List.{AllZip};
ghost use Rattle.tendril_run.specs.Chains.{Worked};
ghost use Rattle.tendril_run.specs.Jobs.{JobEnds, IsBegun};
ghost use Rattle.tendril_run.specs.Steps.{Step};

use crate::classifier::Classifier;
use crate::command_table::run_behind;
use crate::gate::Gate;
use crate::table::Table;
use std::alloc::Global;
use std::marker::Send;
use std::snapshot::Snapshot;
use std::thread;
use std::thread::{Promise, PromisedHandle, Threads};
use tendril_lines::{Command, Reply};
use tendril_text::Atomic;
use tendril_text::block::Refusal;

/// The job of one worker: commands on its own table, whose texts may share blocks with those of other tables.
#[derive(Drop)]
pub struct Job<C, G> {
    pub table: Table<Atomic>,
    pub commands: Vec<Command>,
    pub class: C,
    pub gate: G,
}

/// How a job ended.
#[derive(Drop)]
pub enum Outcome {
    /// The table after all commands, and one reply each.
    Done(Table<Atomic>, Vec<Reply>),
    /// There was no memory for the replies or the slots. The table is as before.
    Refused(Table<Atomic>, Refusal),
    /// No thread could be started. The table was dropped.
    NotStarted,
}

// What a worker returns.
type Ending = (Table<Atomic>, Result<Vec<Reply>, Refusal>);

// The worker's promise: it returns the ending of this job.
#[derive(Drop)]
struct EndingOf<C, G>(Snapshot<Job<C, G>>);

impl<C: Classifier, G> Promise<Ending> for EndingOf<C, G> {
    ghost kept_by = { λ p r. let job = p.0.value in
        Worked (Step (C.class job.class)) (λ v. v.items) job.table.cells job.commands.items r.0.cells r.1 };
}

// None if no thread could be started.
type Worker<C, G> = Option<PromisedHandle<Ending, EndingOf<C, G>>>;

/// Runs each job in its own thread, and returns the outcomes in the order of the jobs.
///
/// Capacity for the threads' handles and the outcomes is reserved before the first thread is started. If that fails,
/// `run_tables` returns Memory with the jobs. Later errors are outcomes of single jobs. All threads are started before
/// the first is joined.
pub fn run_tables<
    R: Threads,
    C: Classifier + Send + Drop + 'static,
    G: Gate + Send + Drop + 'static,
>(rt: &R, alloc: Global, jobs: Vec<Job<C, G>>) -> Result<Vec<Outcome>, (Refusal, Vec<Job<C, G>>)>
    ensures ok { IfOk result (λ outcomes.
        AllZip (λ j o. JobEnds (C.class j.class) j.table.cells j.commands.items o) jobs.items outcomes.items) }
    ensures refusal { IfErr result (λ e. e.0 ≡ Refusal.Memory) }
    ensures back { IfErr result (λ e. e.1 ≡ jobs) }
{
    let mut workers = Vec::new(alloc);
    let mut outcomes = Vec::new(alloc);
    if workers.reserve(jobs.len()).is_err() || outcomes.reserve(jobs.len()).is_err() {
        return Err((Refusal::Memory, jobs));
    }
    let workers = start_all(rt, jobs, workers);
    Ok(join_all(rt, workers, outcomes))
}

// A worker for each job.
fn start_all<R: Threads, C: Classifier + Send + Drop + 'static, G: Gate + Send + Drop + 'static>(
    rt: &R,
    jobs: Vec<Job<C, G>>,
    mut workers: Vec<Worker<C, G>>,
) -> Vec<Worker<C, G>>
    requires empty { workers.items ≡ [] }
    requires room { vec_len workers + vec_len jobs ≤ vec_capacity workers }
    ensures each { AllZip (λ j w. IfSome w (λ h. h.promise.0.value ≡ j)) jobs.items result.items }
    ensures len { vec_len result ≡ vec_len workers + vec_len jobs }
{
    for job in jobs {
        let worker = start(rt, job);
        workers.push_reserved(worker);
    }
    workers
}

fn start<R: Threads, C: Classifier + Send + Drop + 'static, G: Gate + Send + Drop + 'static>(
    rt: &R,
    job: Job<C, G>,
) -> Worker<C, G>
    ensures { IfSome result (λ h. h.promise.0.value ≡ job) }
{
    thread::spawn_with(rt, EndingOf(Snapshot::of(&job)), move || work(job)).ok()
}

// Runs in the worker's thread.
fn work<C: Classifier + Drop, G: Gate + Drop>(job: Job<C, G>) -> Ending
    ensures { Worked (Step (C.class job.class)) (λ v. v.items) job.table.cells job.commands.items result.0.cells
        result.1 }
{
    let Job {
        mut table,
        commands,
        class,
        gate,
    } = job;
    let replies = run_behind(&mut table, commands.as_slice(), &class, &gate);
    (table, replies)
}

// The outcome of each worker: NotStarted only if its thread wasn't started.
fn join_all<R: Threads, C: Classifier, G>(
    rt: &R,
    workers: Vec<Worker<C, G>>,
    mut outcomes: Vec<Outcome>,
) -> Vec<Outcome>
    requires empty { outcomes.items ≡ [] }
    requires room { vec_len outcomes + vec_len workers ≤ vec_capacity outcomes }
    ensures { AllZip (λ w o. MatchOption w (o ≡ Outcome.NotStarted)
        (λ h. let job = h.promise.0.value in JobEnds (C.class job.class) job.table.cells job.commands.items o
        × IsBegun o))
        workers.items result.items }
{
    for worker in workers {
        let outcome = join(rt, worker);
        outcomes.push_reserved(outcome);
    }
    outcomes
}

fn join<R: Threads, C: Classifier, G>(rt: &R, worker: Worker<C, G>) -> Outcome
    ensures { MatchOption worker (result ≡ Outcome.NotStarted)
        (λ h. let job = h.promise.0.value in JobEnds (C.class job.class) job.table.cells job.commands.items result
        × IsBegun result) }
{
    match worker {
        Some(handle) => match handle.join(rt) {
            (table, Ok(replies)) => Outcome::Done(table, replies),
            (table, Err(refusal)) => Outcome::Refused(table, refusal),
        },
        None => Outcome::NotStarted,
    }
}
