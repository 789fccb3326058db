ghost use Rattle.std.specs.Prelude.{◌≡◌, ◌≢◌, ◌++◌, [], ◌∷◌, false, IfOk, codes, map, string_bytes};
ghost use Rattle.std.specs.Fmt.{decimal};
ghost use Rattle.number_text.specs.Lines.{line};
ghost use Rattle.word_readers.specs.Operands.{IsFileWord, file_name};
ghost use Rattle.job_endings.specs.Endings.{EndsPut, EndsWith};
ghost use Rattle.job_endings.specs.Refusals.{IsOfWords, names_file, refusal_line, refusal_status, source_line};

use crate::assembly_kind::{AssemblyKind, assembly_line};
use crate::lines::{put_lines, put_piece};
use crate::object_kind::{ObjectKind, object_line};
use crate::status::Status;
use number_text::Line;
use outside::Sink;
use source_reader::{SourceFault, SourceKind};
use std::alloc::{AllocError, Global};
use word_readers::{FileWord, name_of};

/// Why a job is refused: one line and a status.
#[derive(Clone, Copy, Debug, PartialEq, Eq)]
pub enum Refusal {
    /// The words are no job.
    Usage,
    /// The file isn't there, or can't be read.
    Unread(FileWord),
    /// The file has more bytes than the limit.
    TooLong(FileWord),
    /// The source is refused.
    Source(SourceFault),
    /// The object is refused.
    Object(ObjectKind),
    /// The assembly text is refused.
    Assembly(AssemblyKind),
    /// The first word of the input that is no whole number stands at this place, counted in bytes from 0.
    Input(usize),
    /// The first line of the faults that breaks a rule has this number, counted from 1.
    Faults(u32),
    /// The first word of the schedule that is no turn has this number, counted from 1.
    Schedule(u32),
}

/// Why a job stops before anything is put.
#[derive(Clone, Copy, Debug, PartialEq, Eq)]
pub enum Stop {
    /// It is refused.
    Refused(Refusal),
    /// Memory ran out.
    NoMemory,
}

/// Puts the line of a refusal, and ends with its status. Only a line with a file's name takes memory.
pub fn put_refusal<K: Sink>(
    alloc: Global,
    words: &[String],
    refusal: &Refusal,
    sink: &mut K,
) -> Status
    requires { IsOfWords (map string_bytes words.now) refusal.now }
    ensures line { EndsWith K.puts K.state sink.old (refusal_line (map string_bytes words.now) refusal.now ∷ [])
        (refusal_status refusal.now) result sink.new }
    ensures memory { names_file refusal.now ≡ false → result ≢ Status.NoMemory }
{
    match *refusal {
        Refusal::Usage => put_lines(sink, &[Line::of(b"usage").end()], Status::Usage),
        Refusal::Unread(file) => {
            put_file_line(
                alloc,
                b"unread ",
                name_of(words, file),
                Status::Unread,
                sink,
            )
        }
        Refusal::TooLong(file) => {
            put_file_line(
                alloc,
                b"too long ",
                name_of(words, file),
                Status::TooLong,
                sink,
            )
        }
        Refusal::Source(fault) => put_lines(sink, &[source_line(fault)], Status::SourceRefused),
        Refusal::Object(kind) => put_lines(sink, &[object_line(kind)], Status::ObjectRefused),
        Refusal::Assembly(kind) => put_lines(sink, &[assembly_line(kind)], Status::ObjectRefused),
        Refusal::Input(place) => put_lines(sink, &[input_line(place)], Status::InputRefused),
        Refusal::Faults(n) => put_lines(sink, &[faults_line(n)], Status::PlanRefused),
        Refusal::Schedule(n) => put_lines(sink, &[schedule_line(n)], Status::PlanRefused),
    }
}

/// Puts a line with a file's name, and ends with a status.
fn put_file_line<K: Sink>(
    alloc: Global,
    text: &[u8],
    name: &str,
    status: Status,
    sink: &mut K,
) -> Status
    ensures { EndsWith K.puts K.state sink.old (line (text.now ++ name.now) ∷ []) status result sink.new }
{
    match file_line(alloc, text, name) {
        Ok(line) => put_piece(sink, line.as_slice(), status),
        Err(_) => Status::NoMemory,
    }
}

/// A text, the name of a file, and LF.
fn file_line(alloc: Global, text: &[u8], name: &str) -> Result<Vec<u8>, AllocError>
    ensures { IfOk result (λ made. made.items ≡ line (text.now ++ name.now)) }
{
    let mut line = Vec::from_slice(alloc, text)?;
    line.extend_from_slice(name.as_bytes())?;
    line.push(b'\n')?;
    Ok(line)
}

/// The line `refused source KIND LINE`.
fn source_line(fault: SourceFault) -> Line
    ensures { result ≡ line (source_line fault) }
{
    let kind: &[u8] = match fault.kind {
        SourceKind::Byte => b"byte",
        SourceKind::LongNumber => b"long-number",
        SourceKind::Syntax => b"syntax",
        SourceKind::TooDeep => b"too-deep",
        SourceKind::UnknownName => b"unknown-name",
        SourceKind::NameTwice => b"name-twice",
        SourceKind::WrongKind => b"wrong-kind",
        SourceKind::LoopAssigned => b"loop-assigned",
        SourceKind::Arguments => b"arguments",
        SourceKind::BadRange => b"bad-range",
        SourceKind::EmptyArray => b"empty-array",
        SourceKind::TooMany => b"too-many",
        SourceKind::TooWide => b"too-wide",
        SourceKind::Unbuilt => b"unbuilt",
    };
    Line::of(b"refused source ")
        .text(kind)
        .text(b" ")
        .count(u64::from(fault.line))
        .end()
}

/// The line `refused input PLACE`.
fn input_line(place: usize) -> Line
    ensures { result ≡ line (codes "refused input " ++ decimal place) }
{
    Line::of(b"refused input ").count(place as u64).end()
}

/// The line `refused faults LINE`.
fn faults_line(n: u32) -> Line
    ensures { result ≡ line (codes "refused faults " ++ decimal n) }
{
    Line::of(b"refused faults ").count(u64::from(n)).end()
}

/// The line `refused schedule TURN`.
fn schedule_line(n: u32) -> Line
    ensures { result ≡ line (codes "refused schedule " ++ decimal n) }
{
    Line::of(b"refused schedule ").count(u64::from(n)).end()
}
