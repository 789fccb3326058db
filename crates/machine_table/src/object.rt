ghost use Rattle.std.specs.Prelude.{◌≡◌, IfOk, None};
ghost use Rattle.std.specs.Result.{result_err};
ghost use Rattle.moduli_sets.specs.Name.{set_of_name};
ghost use Rattle.machine_table.specs.Faults.{IsSound, object_fault};

use crate::rules::Rules;
use crate::{Instr, ObjectFault};
use moduli_sets::{Moduli, SetName};

/// The most instructions of a program.
const MOST_INSTRUCTIONS: usize = 65_536;

/// The most data words of a program.
const MOST_WORDS: usize = 65_536;

/// A program that breaks no rule: each register, target, address and constant that its instructions name exists, and
/// each data word lies in the range of its set.
#[derive(Debug, Drop)]
pub struct Object {
    set: SetName,
    code: Vec<Instr>,
    words: Vec<i128>,
    ghost no_fault: { object_fault (set_of_name set) code.items words.items ≡ None },
}

impl Object {
    ghost use Rattle.machine_table.specs.Objects.{set_of_object, code_of, words_of};

    /// The program of these instructions and data words for a set, or the first rule that it breaks: too many
    /// instructions, too many data words, the first fault of the first instruction that has one, the first data word
    /// out of range. It takes no memory.
    pub fn check(set: SetName, code: Vec<Instr>, words: Vec<i128>) -> Result<Object, ObjectFault>
        ensures fault { result_err result ≡ object_fault (set_of_name set) code.items words.items }
        ensures set { IfOk result (λ object. set_of_object object ≡ set) }
        ensures code { IfOk result (λ object. code_of object ≡ code.items) }
        ensures words { IfOk result (λ object. words_of object ≡ words.items) }
    {
        match fault_in(set, &code, &words) {
            Some(fault) => Err(fault),
            None => Ok(Object { set, code, words }),
        }
    }

    /// The set that the program is for.
    pub fn set(&self) -> SetName
        ensures { result ≡ set_of_object self.now }
    {
        self.set
    }

    /// The instructions, at most 65,536, numbered from 0.
    pub fn code(&self) -> &[Instr]
        ensures { result.now ≡ code_of self.now }
    {
        self.code.as_slice()
    }

    /// The data words at the start, at most 65,536, numbered from 0.
    pub fn words(&self) -> &[i128]
        ensures { result.now ≡ words_of self.now }
    {
        self.words.as_slice()
    }

    /// All that a program names exists.
    pub fn rules(&self)
        ensures fault { object_fault (set_of_name (set_of_object self.now)) (code_of self.now) (words_of self.now) ≡ None }
        ensures sound { IsSound (set_of_name (set_of_object self.now)) (code_of self.now) (words_of self.now) }
    {}
}

/// The first rule that a program breaks.
fn fault_in(set: SetName, code: &[Instr], words: &[i128]) -> Option<ObjectFault>
    ensures { result ≡ object_fault (set_of_name set) code.now words.now }
{
    if code.len() > MOST_INSTRUCTIONS {
        return Some(ObjectFault::TooMuchCode);
    }
    if words.len() > MOST_WORDS {
        return Some(ObjectFault::TooMuchData);
    }
    let rules = Rules {
        set: Moduli::of(set),
        instructions: code.len() as u32,
        words: words.len() as u32,
    };
    let fault = rules.code_fault(code);
    if fault.is_some() {
        return fault;
    }
    rules.words_fault(words)
}
