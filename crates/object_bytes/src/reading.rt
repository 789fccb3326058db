ghost use Rattle.std.specs.Prelude.{◌≡◌, ◌*◌, ◌≤◌, IfErr, IfOk, None, length};
ghost use Rattle.std.specs.Option.{option_map};
ghost use Rattle.machine_table.specs.Objects.{code_of, set_of_object, words_of};
ghost use Rattle.object_bytes.specs.Loading.{IsRefusal, code_from, load_fault, program_in, records_fault, words_from};
ghost use Rattle.object_bytes.specs.Programs.{program_of};
ghost use Rattle.object_bytes.specs.Spelling.{bytes_of};
ghost use Rattle.object_bytes.specs.declared.fault.LoadFault.TheVariants.{BadRecord};

use crate::LoadFault;
use crate::bytes::integer_at;
use crate::header::{HEADER, Header, RECORD, WORD};
use crate::record::read_record;
use machine_table::{Instr, Object};
use std::alloc::{AllocError, Global};

/// The object that the bytes spell, or the first fault: of the header, its counts, the length, the first record that
/// breaks its layout, the program. NoMemory where memory runs out; nothing is reserved before the counts and the length
/// are found right.
pub fn read(alloc: Global, bytes: &[u8]) -> Result<Object, LoadFault>
    ensures fault { IfErr result (IsRefusal (load_fault bytes.now)) }
    ensures no_fault { IfOk result (λ object. load_fault bytes.now ≡ None) }
    ensures program { IfOk result (λ object. program_in bytes.now ≡ program_of object) }
    ensures spelled { IfOk result (λ object. bytes.now ≡ bytes_of (set_of_object object) (code_of object) (words_of object)) }
{
    let header = Header::read(bytes)?;
    let code = read_code(alloc, header.instructions, &bytes[HEADER..])?;
    let words = read_words(
        alloc,
        header.words,
        &bytes[HEADER + RECORD * header.instructions..],
    )?;
    match Object::check(header.set, code, words) {
        Ok(object) => Ok(object),
        Err(fault) => Err(LoadFault::Unsound(fault)),
    }
}

/// The instructions of so many records, or the first place that breaks its record's layout.
fn read_code(alloc: Global, count: usize, records: &[u8]) -> Result<Vec<Instr>, LoadFault>
    requires count { count ≤ 65536 }
    requires long { 40 * count ≤ length records.now }
    ensures code { IfOk result (λ code. (records_fault count 16 records.now ≡ None) × (code.items ≡ code_from count records.now)) }
    ensures fault { IfErr result (IsRefusal (option_map BadRecord (records_fault count 16 records.now))) }
{
    let mut code = Vec::with_capacity(alloc, count)?;
    for n in 0..count {
        let start = RECORD * n;
        match read_record(&records[start..start + RECORD], HEADER + start) {
            Ok(instr) => code.push(instr)?,
            Err(place) => return Err(LoadFault::BadRecord(place)),
        }
    }
    Ok(code)
}

/// So many data words.
fn read_words(alloc: Global, count: usize, bytes: &[u8]) -> Result<Vec<i128>, AllocError>
    requires count { count ≤ 65536 }
    requires long { 16 * count ≤ length bytes.now }
    ensures { IfOk result (λ words. words.items ≡ words_from count bytes.now) }
{
    let mut words = Vec::with_capacity(alloc, count)?;
    for n in 0..count {
        words.push(integer_at(bytes, WORD * n))?;
    }
    Ok(words)
}
