ghost use Rattle.std.specs.Prelude.{◌≡◌, ◌≢◌, ◌≤◌, ℕ, List, ◌⊎◌, true, All, IfErr, None, length, map};
ghost use Rattle.command_words.specs.Words.{HoldsOf, job_of_words};
ghost use Rattle.outside.specs.Faults.{Rose};
ghost use Rattle.outside.specs.Shelf.{TellsMissing};
ghost use Rattle.job_endings.specs.Files.{FetchesFiles, Given, SomeFile, file_limit};
ghost use Rattle.job_endings.specs.Refusals.{IsStopOfWords};
ghost use Rattle.rnm_engine.specs.Jobs.{Does, IsDone, IsOwn, TakesNone, takes_no_memory};
ghost use Rattle.rnm_engine.specs.Answer.{IsAnswer, IsAnswered, IsComplete, IsFinished, LeavesSink, files_of_words, words_of};

use crate::asm::asm;
use crate::exec::exec;
use crate::files::{files_of, text_at};
use crate::list::list;
use crate::mean::mean;
use crate::run::run;
use command_words::{Job, job_of};
use job_endings::{Refusal, Status, Stop, fetch_all, put_refusal};
use moduli_sets::Moduli;
use object_runs::RunOptions;
use outside::{Shelf, Sink};
use set_commands::{decode, describe, encode};
use std::alloc::Global;

/// Does the job that the words ask for, over files from a shelf: what is printed goes to the sink,
/// each line in one put, and the status says how the job ended. After a put that failed there is no
/// other.
pub fn rnm<S: Shelf, K: Sink>(
    alloc: Global,
    words: &[String],
    shelf: &mut S,
    sink: &mut K,
) -> Status
    // The files of the job are fetched in order, and what is put is the answer over what they give.
    ensures answer { IsAnswered S.fetches S.state K.puts K.state (words_of words.now)
        shelf.old sink.old result shelf.new sink.new }
    // Where the shelf tells what it holds and nothing fails, it is the answer over that, whole; or
    // memory ran out.
    ensures complete { IsComplete S.state K.puts K.state (words_of words.now)
        shelf.old sink.old result shelf.new sink.new }

    // Words that are no job end as such. They take no memory, and no more do jobs without files.
    ensures usage { job_of_words (words_of words.now) ≡ None
        → (result ≡ Status.Usage) ⊎ (result ≡ Status.Unwritten) }
    ensures memory { takes_no_memory (job_of_words (words_of words.now)) ≡ true
        → result ≢ Status.NoMemory }
    ensures unread { result ≡ Status.Unread
        → Rose (S.state shelf.old).faults (S.state shelf.new).faults
        ⊎ SomeFile (TellsMissing (S.state shelf.old)) (words_of words.now)
        (files_of_words (words_of words.now)) }

    // What the status says of the sink. What the shelf holds stays.
    ensures sink { LeavesSink K.puts K.state sink.old result sink.new }
    ensures told { (S.state shelf.new).told ≡ (S.state shelf.old).told }
{
    let outcome = done(alloc, words, shelf, sink);
    finish(alloc, words, outcome, sink)
}

/// Ends a job: what it was refused for is put.
fn finish<K: Sink>(
    alloc: Global,
    words: &[String],
    done: Result<Status, Stop>,
    sink: &mut K,
) -> Status
    requires { IfErr done (IsStopOfWords (words_of words.now)) }
    ensures ends { IsFinished K.puts K.state (words_of words.now) done sink.old result sink.new }
    ensures memory { TakesNone done → result ≢ Status.NoMemory }
{
    match done {
        Ok(status) => status,
        Err(Stop::Refused(refusal)) => put_refusal(alloc, words, &refusal, sink),
        Err(Stop::NoMemory) => Status::NoMemory,
    }
}

/// Does the job that the words ask for, or says why it stops before anything is put.
fn done<S: Shelf, K: Sink>(
    alloc: Global,
    words: &[String],
    shelf: &mut S,
    sink: &mut K,
) -> Result<Status, Stop>
    ensures answer { (given : Given)
        × FetchesFiles S.fetches S.state (words_of words.now) shelf.old (files_of_words (words_of words.now)) given shelf.new
        × Does K.puts K.state sink.old (IsAnswer (words_of words.now) given) result sink.new }
    ensures words { IfErr result (IsStopOfWords (words_of words.now)) }
    ensures memory { takes_no_memory (job_of_words (words_of words.now)) ≡ true → TakesNone result }
{
    let Some(job) = job_of(words) else {
        return Err(Stop::Refused(Refusal::Usage));
    };
    match fetch_all(alloc, words, files_of(&job).as_slice(), shelf) {
        Ok(texts) => do_job(alloc, &job, texts.as_slice(), sink),
        Err(stop) => Err(stop),
    }
}

/// Does a job on its texts.
fn do_job<K: Sink>(
    alloc: Global,
    job: &Job,
    texts: &[Vec<u8>],
    sink: &mut K,
) -> Result<Status, Stop>
    requires holds { (words : List (List ℕ)) × HoldsOf words job.now }
    requires short { All (λ text. length text.items ≤ file_limit) texts.now }
    ensures answer { Does K.puts K.state sink.old (IsOwn (IsDone job.now (map (λ text. text.items) texts.now))) result sink.new }
    ensures memory { takes_no_memory (Some job.now) ≡ true → TakesNone result }
{
    match job {
        Job::Run { .. } => run(alloc, text_at(texts, 0), sink),
        Job::Decode { set, residues } => Ok(decode(&Moduli::of(*set), residues, sink)),
        Job::Encode { set, x } => Ok(encode(&Moduli::of(*set), *x, sink)),
        Job::Exec { steps, journal, .. } => {
            exec(
                alloc,
                text_at(texts, 0),
                text_at(texts, 1),
                text_at(texts, 2),
                text_at(texts, 3),
                RunOptions {
                    steps: *steps,
                    journal: *journal,
                },
                sink,
            )
        }
        Job::Asm { .. } => asm(alloc, text_at(texts, 0), sink),
        Job::List { .. } => list(alloc, text_at(texts, 0), sink),
        Job::Mean { set, steps, .. } => {
            mean(
                alloc,
                text_at(texts, 0),
                text_at(texts, 1),
                *set,
                *steps,
                sink,
            )
        }
        Job::Set { set } => Ok(describe(&Moduli::of(*set), sink)),
    }
}
