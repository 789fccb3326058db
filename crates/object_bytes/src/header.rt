ghost use Rattle.std.specs.Prelude.{◌≡◌, ◌++◌, ◌≤◌, None, Some, IfOk, MatchResult, OnOk, length};
ghost use Rattle.std.specs.Result.{result_err};
ghost use Rattle.object_bytes.specs.Loading.{counts_fault, header_fault, prefix_fault, set_in, set_numbered};
ghost use Rattle.object_bytes.specs.Spelling.{header_bytes, number_of_set};

use crate::LoadFault;
use crate::bytes::natural_at;
use machine_table::ObjectFault;
use moduli_sets::SetName;
use std::alloc::AllocError;

/// The bytes that begin each object.
const MAGIC: &[u8] = b"RNMO";

/// The version of the format.
const VERSION: u8 = 1;

/// The number of bytes of the header, of an instruction's record and of a data word.
pub const HEADER: usize = 16;

pub const RECORD: usize = 40;

pub const WORD: usize = 16;

/// The most instructions, and the most data words.
const MOST: u32 = 65_536;

/// What the first 16 bytes of an object say.
#[derive(Clone, Copy)]
pub struct Header {
    pub set: SetName,
    /// How many instructions.
    pub instructions: usize,
    /// How many data words.
    pub words: usize,
}

impl Header {
    ghost use Rattle.object_bytes.specs.Header.{IsHeader};

    /// The header of bytes that are as many as it says; or else its first fault.
    #[tactic(auto, unfolding(crate::specs::Loading::header_fault))]
    pub fn read(bytes: &[u8]) -> Result<Header, LoadFault>
        ensures { MatchResult result
            (IsHeader bytes.now)
            (λ fault. header_fault bytes.now ≡ Some fault) }
    {
        let set = set_in(bytes)?;
        let instructions = natural_at(bytes, 8);
        let words = natural_at(bytes, 12);
        check_counts(instructions, words, bytes.len())?;
        Ok(Header {
            set,
            instructions: instructions as usize,
            words: words as usize,
        })
    }

    /// Puts the 16 bytes of the header at the end.
    pub fn put(&self, out: &mut Vec<u8>) -> Result<(), AllocError>
        requires instructions { self.now.instructions ≤ 65536 }
        requires words { self.now.words ≤ 65536 }
        ensures { OnOk result (out.new.items ≡ out.old.items
            ++ header_bytes self.now.set self.now.instructions self.now.words) }
    {
        out.extend_from_slice(MAGIC)?;
        out.extend_from_slice(&[VERSION, number_of(self.set), 0, 0])?;
        out.extend_from_slice(&(self.instructions as u32).to_be_bytes())?;
        out.extend_from_slice(&(self.words as u32).to_be_bytes())?;
        Ok(())
    }
}

/// The set of an object that has no fault up to byte 7.
#[tactic(auto, unfolding(crate::specs::Loading::prefix_fault))]
fn set_in(bytes: &[u8]) -> Result<SetName, LoadFault>
    ensures fault { result_err result ≡ prefix_fault bytes.now }
    ensures set { IfOk result (λ set. set ≡ set_in bytes.now) }
    ensures long { OnOk result (16 ≤ length bytes.now) }
{
    if bytes.len() < HEADER {
        return Err(LoadFault::Short(bytes.len()));
    }
    if &bytes[..4] != MAGIC {
        return Err(LoadFault::BadMagic);
    }
    if bytes[4] != VERSION {
        return Err(LoadFault::BadVersion(bytes[4]));
    }
    let Some(set) = set_numbered(bytes[5]) else {
        return Err(LoadFault::BadSet(bytes[5]));
    };
    if bytes[6] != 0 {
        return Err(LoadFault::BadRecord(6));
    }
    if bytes[7] != 0 {
        return Err(LoadFault::BadRecord(7));
    }
    Ok(set)
}

/// Whether the counts are lawful and the length is that of so many instructions and data words.
#[tactic(auto, unfolding(crate::specs::Loading::counts_fault))]
fn check_counts(instructions: u32, words: u32, length: usize) -> Result<(), LoadFault>
    ensures { result_err result ≡ counts_fault instructions words length }
{
    if instructions > MOST {
        return Err(LoadFault::Unsound(ObjectFault::TooMuchCode));
    }
    if words > MOST {
        return Err(LoadFault::Unsound(ObjectFault::TooMuchData));
    }
    let wanted = HEADER + RECORD * instructions as usize + WORD * words as usize;
    if length < wanted {
        Err(LoadFault::Short(length))
    } else if length > wanted {
        Err(LoadFault::Long(length - wanted))
    } else {
        Ok(())
    }
}

/// The set of a number.
fn set_numbered(number: u8) -> Option<SetName>
    ensures { result ≡ set_numbered number }
{
    match number {
        1 => Some(SetName::Pocket),
        2 => Some(SetName::Desk),
        3 => Some(SetName::Hall),
        _ => None,
    }
}

/// The number of a set.
fn number_of(set: SetName) -> u8
    ensures { result ≡ number_of_set set }
{
    match set {
        SetName::Pocket => 1,
        SetName::Desk => 2,
        SetName::Hall => 3,
    }
}
