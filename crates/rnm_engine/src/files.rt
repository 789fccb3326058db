//! The files of a job, and its texts.
ghost use Rattle.std.specs.Prelude.{◌≡◌, ◌≤◌, All, length, map};
ghost use Rattle.job_endings.specs.Files.{file_limit, most_files};
ghost use Rattle.rnm_engine.specs.Jobs.{files_of_job, text_at};

use arrayvec::ArrayVec;
use command_words::{FileWord, Job};
use job_endings::MOST_FILES;

/// The files of a job, in the order in which they are fetched; None where the words name none.
pub fn files_of(job: &Job) -> ArrayVec<Option<FileWord>, MOST_FILES>
    ensures value { result.items ≡ files_of_job job.now }
    ensures few { length result.items ≤ most_files }
{
    let mut files = ArrayVec::new();
    match job {
        Job::Run { source } => files.push(Some(*source)),
        Job::Exec {
            object,
            input,
            faults,
            schedule,
            ..
        } => {
            files.push(Some(*object));
            files.push(*input);
            files.push(*faults);
            files.push(*schedule);
        }
        Job::Asm { text } => files.push(Some(*text)),
        Job::List { object } => files.push(Some(*object)),
        Job::Mean { source, input, .. } => {
            files.push(Some(*source));
            files.push(*input);
        }
        Job::Decode { .. } | Job::Encode { .. } | Job::Set { .. } => {}
    }
    files
}

/// Text number n, and empty where there is none.
pub fn text_at(texts: &[Vec<u8>], n: usize) -> &[u8]
    requires { All (λ text. length text.items ≤ file_limit) texts.now }
    ensures value { result.now ≡ text_at (map (λ text. text.items) texts.now) n }
    ensures short { length result.now ≤ file_limit }
{
    match texts.get(n) {
        Some(text) => text.as_slice(),
        None => &[],
    }
}
