ghost use Rattle.std.specs.Prelude.{◌≡◌, ◌≤◌, IfSome, map, string_bytes};
ghost use Rattle.word_readers.specs.Operands.{IsFileWord};
ghost use Rattle.command_words.specs.Words.{HoldsOf, asm_job, decode_job, encode_job, exec_job, job_of_words, list_job, mean_job, only_file, run_job, set_job, set_option, steps_option};

use crate::Job;
use moduli_sets::{Moduli, SetName};
use word_readers::{
    FileWord, OptionKind, OptionRow, file_and_input, file_option, has_flag, has_only_options,
    integer_in_range, named_file, option_value, residues_in, steps_in,
};

/// The options of `mean`.
const MEAN_OPTIONS: [OptionRow; 2] = [("--set", OptionKind::Value), ("--steps", OptionKind::Value)];

/// The options of `exec`.
const EXEC_OPTIONS: [OptionRow; 4] = [
    ("--steps", OptionKind::Value),
    ("--faults", OptionKind::Value),
    ("--schedule", OptionKind::Value),
    ("--journal", OptionKind::Flag),
];

/// The limit of steps where the words say none.
const DEFAULT_STEPS: u64 = 1_000_000;

/// The job that the words ask for. None exactly where they are a usage fault.
pub fn job_of(words: &[String]) -> Option<Job>
    ensures value { result ≡ job_of_words (map string_bytes words.now) }
    ensures holds { IfSome result (HoldsOf (map string_bytes words.now)) }
{
    let (command, _) = words.split_first()?;
    match command.as_str() {
        "run" => run_job(words),
        "exec" => exec_job(words),
        "asm" => asm_job(words),
        "list" => list_job(words),
        "decode" => decode_job(words),
        "encode" => encode_job(words),
        "mean" => mean_job(words),
        "set" => set_job(words),
        _ => None,
    }
}

/// `run SOURCE - --set=pocket`, the words in this order.
fn run_job(words: &[String]) -> Option<Job>
    ensures value { result ≡ run_job (map string_bytes words.now) }
    ensures holds { IfSome result (HoldsOf (map string_bytes words.now)) }
{
    let [_, _, input, set] = words else {
        return None;
    };
    if input.as_str() != "-" || set.as_str() != "--set=pocket" {
        return None;
    }
    let source = named_file(words, 1)?;
    Some(Job::Run { source })
}

/// `exec OBJECT INPUT`, with the options `--steps=N`, `--faults=FILE`, `--schedule=FILE` and `--journal` before, between or
/// after them.
fn exec_job(words: &[String]) -> Option<Job>
    ensures value { result ≡ exec_job (map string_bytes words.now) }
    ensures holds { IfSome result (HoldsOf (map string_bytes words.now)) }
{
    if !has_only_options(words, &EXEC_OPTIONS) {
        return None;
    }
    let (object, input) = file_and_input(words)?;
    let steps = steps_option(words)?;
    let faults = file_option(words, "--faults")?;
    let schedule = file_option(words, "--schedule")?;
    let journal = has_flag(words, "--journal")?;
    Some(Job::Exec {
        object,
        input,
        steps,
        faults,
        schedule,
        journal,
    })
}

/// `asm TEXT`.
fn asm_job(words: &[String]) -> Option<Job>
    ensures value { result ≡ asm_job (map string_bytes words.now) }
    ensures holds { IfSome result (HoldsOf (map string_bytes words.now)) }
{
    let text = only_file(words)?;
    Some(Job::Asm { text })
}

/// `list OBJECT`.
fn list_job(words: &[String]) -> Option<Job>
    ensures value { result ≡ list_job (map string_bytes words.now) }
    ensures holds { IfSome result (HoldsOf (map string_bytes words.now)) }
{
    let object = only_file(words)?;
    Some(Job::List { object })
}

/// The file that the one word after the command names.
fn only_file(words: &[String]) -> Option<FileWord>
    ensures value { result ≡ only_file (map string_bytes words.now) }
    ensures within { IfSome result (IsFileWord (map string_bytes words.now)) }
{
    let [_, _] = words else {
        return None;
    };
    named_file(words, 1)
}

/// `decode SET RESIDUE ..`, one residue for each channel.
fn decode_job(words: &[String]) -> Option<Job>
    ensures value { result ≡ decode_job (map string_bytes words.now) }
    ensures holds { IfSome result (HoldsOf (map string_bytes words.now)) }
{
    let [_, name, residues @ ..] = words else {
        return None;
    };
    let set = SetName::named(name.as_bytes())?;
    let residues = residues_in(&Moduli::of(set), residues)?;
    Some(Job::Decode { set, residues })
}

/// `encode SET X`.
fn encode_job(words: &[String]) -> Option<Job>
    ensures value { result ≡ encode_job (map string_bytes words.now) }
    ensures holds { IfSome result (HoldsOf (map string_bytes words.now)) }
{
    let [_, name, number] = words else {
        return None;
    };
    let set = SetName::named(name.as_bytes())?;
    let x = integer_in_range(set, number.as_bytes())?;
    Some(Job::Encode { set, x })
}

/// `mean SOURCE INPUT`, with the options `--set=SET` and `--steps=N` before, between or after them.
fn mean_job(words: &[String]) -> Option<Job>
    ensures value { result ≡ mean_job (map string_bytes words.now) }
    ensures holds { IfSome result (HoldsOf (map string_bytes words.now)) }
{
    if !has_only_options(words, &MEAN_OPTIONS) {
        return None;
    }
    let (source, input) = file_and_input(words)?;
    let set = set_option(words)?;
    let steps = steps_option(words)?;
    Some(Job::Mean {
        source,
        input,
        set,
        steps,
    })
}

/// The set that the option `--set` names, or `desk` where it isn't there.
fn set_option(words: &[String]) -> Option<SetName>
    ensures { result ≡ set_option (map string_bytes words.now) }
{
    match option_value(words, "--set")? {
        Some(name) => SetName::named(name.as_bytes()),
        None => Some(SetName::Desk),
    }
}

/// The limit that the option `--steps` writes, or 1,000,000 where it isn't there.
fn steps_option(words: &[String]) -> Option<u64>
    ensures value { result ≡ steps_option (map string_bytes words.now) }
    ensures few { IfSome result (λ steps. steps ≤ 1000000000) }
{
    match option_value(words, "--steps")? {
        Some(number) => steps_in(number.as_bytes()),
        None => Some(DEFAULT_STEPS),
    }
}

/// `set SET`.
fn set_job(words: &[String]) -> Option<Job>
    ensures value { result ≡ set_job (map string_bytes words.now) }
    ensures holds { IfSome result (HoldsOf (map string_bytes words.now)) }
{
    let [_, name] = words else {
        return None;
    };
    let set = SetName::named(name.as_bytes())?;
    Some(Job::Set { set })
}
