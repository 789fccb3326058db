ghost use Rattle.std.specs.Prelude.{◌≡◌, ◌≤◌, All, IfErr, IfOk, IfSome, MatchResult, Ok, Err, length, map, string_bytes};
ghost use Rattle.outside.specs.declared.shelf.Fetch.TheVariants.{Whole};
ghost use Rattle.outside.specs.Shelf.{IsFetch};
ghost use Rattle.word_readers.specs.Operands.{IsFileWord, file_name};
ghost use Rattle.job_endings.specs.Files.{FetchesFiles, GivesStop, GivesText, StopsAt, file_limit, most_files};
ghost use Rattle.job_endings.specs.Refusals.{IsStopOfWords};

use crate::refusal::{Refusal, Stop};
use arrayvec::ArrayVec;
use outside::{Fetch, Shelf};
use std::alloc::Global;
use word_readers::{FileWord, name_of};

/// The most bytes that a file may have.
const FILE_LIMIT: usize = 4_194_304;

/// The most files that a job has.
pub const MOST_FILES: usize = 5;

/// The texts of a job, in the order of its files. That of a file that isn't named is empty.
pub type Texts = ArrayVec<Vec<u8>, MOST_FILES, Global>;

/// The texts of files, fetched in order, each once. The first that isn't whole ends it.
pub fn fetch_all<S: Shelf>(
    alloc: Global,
    words: &[String],
    files: &[Option<FileWord>],
    shelf: &mut S,
) -> Result<Texts, Stop>
    requires few { length files.now ≤ most_files }
    requires words { All (λ file. IfSome file (IsFileWord (map string_bytes words.now))) files.now }
    ensures fetched { MatchResult result
        (λ texts. FetchesFiles S.fetches S.state (map string_bytes words.now) shelf.old files.now (Ok (map (λ text. text.items) texts.items)) shelf.new)
        (λ stop. FetchesFiles S.fetches S.state (map string_bytes words.now) shelf.old files.now (Err stop) shelf.new) }
    ensures short { IfOk result (λ texts. All (λ text. length text.items ≤ file_limit) texts.items) }
    ensures words { IfErr result (IsStopOfWords (map string_bytes words.now)) }
{
    let mut texts = ArrayVec::new_in(alloc);
    for file in files {
        match fetch_named(alloc, words, *file, shelf) {
            Ok(text) => texts.push(text),
            Err(stop) => return Err(stop),
        }
    }
    Ok(texts)
}

/// The text of one file, and the empty text where none is named.
fn fetch_named<S: Shelf>(
    alloc: Global,
    words: &[String],
    file: Option<FileWord>,
    shelf: &mut S,
) -> Result<Vec<u8>, Stop>
    requires { IfSome file (IsFileWord (map string_bytes words.now)) }
    ensures whole { IfOk result (λ text. GivesText S.fetches S.state (map string_bytes words.now) shelf.old file text.items shelf.new) }
    ensures short { IfOk result (λ text. length text.items ≤ file_limit) }
    ensures stops { IfErr result (λ stop. GivesStop S.fetches S.state (map string_bytes words.now) shelf.old file stop shelf.new) }
    ensures words { IfErr result (IsStopOfWords (map string_bytes words.now)) }
{
    match file {
        Some(file) => fetch_one(alloc, words, file, shelf),
        None => Ok(Vec::new(alloc)),
    }
}

/// The text of one file.
fn fetch_one<S: Shelf>(
    alloc: Global,
    words: &[String],
    file: FileWord,
    shelf: &mut S,
) -> Result<Vec<u8>, Stop>
    requires { IsFileWord (map string_bytes words.now) file }
    ensures whole { IfOk result (λ text. IsFetch S.fetches S.state shelf.old (file_name (map string_bytes words.now) file) file_limit Whole text.items shelf.new) }
    ensures short { IfOk result (λ text. length text.items ≤ file_limit) }
    ensures stops { IfErr result (λ stop. StopsAt S.fetches S.state (map string_bytes words.now) shelf.old file stop shelf.new) }
    ensures words { IfErr result (IsStopOfWords (map string_bytes words.now)) }
{
    let mut text = Vec::new(alloc);
    match shelf.fetch(alloc, name_of(words, file), FILE_LIMIT, &mut text) {
        Fetch::Whole => Ok(text),
        Fetch::TooLong => Err(Stop::Refused(Refusal::TooLong(file))),
        Fetch::Failed => Err(Stop::Refused(Refusal::Unread(file))),
        Fetch::NoMemory => Err(Stop::NoMemory),
    }
}
