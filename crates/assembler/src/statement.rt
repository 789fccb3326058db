ghost use Rattle.std.specs.Prelude.{◌≡◌, ◌∷◌, [], codes, MatchOption, false, true};
ghost use Rattle.moduli_sets.specs.declared.set_name.SetName.{SetName};
ghost use Rattle.assembler.specs.Statements.{IsWellFormed, is_label, name_in_label, names_in};
ghost use Rattle.assembler.specs.Assembly.{set_line};
ghost use Rattle.assembler.specs.Reading.{IsSaid, with_target};
ghost use Rattle.assembler.specs.Lines.{IsInstructionSaid, IsNoInstruction, label_names, said_of};

use crate::fields::{Target, fields_in};
use crate::opcode::Opcode;
use crate::words::{Words, integer_in, is_name};
use machine_table::Instr;
use moduli_sets::SetName;

/// What the words of a line say.
#[derive(Clone, Copy)]
pub enum Statement<'t> {
    /// No more than a label, if that.
    Nothing,
    Instruction(Instr),
    /// An instruction whose target is that of a name; its own target counts for nothing.
    Named(Instr, &'t [u8]),
    Datum(i128),
}

/// A line with the name that its label defines.
#[derive(Clone, Copy)]
pub struct Labelled<'t> {
    pub label: Option<&'t [u8]>,
    pub statement: Statement<'t>,
}

/// The set of a set line. None where the words are no set line.
pub fn set_in(mut words: Words) -> Option<SetName>
    ensures { MatchOption result ((set : SetName) → words.entry ≡ set_line set → ⊥) (λ set. words.entry ≡ set_line set) }
{
    let Some(first) = words.next_word() else {
        return None;
    };
    let Some(second) = words.next_word() else {
        return None;
    };
    if !words.are_none() {
        return None;
    }
    set_named(first, second)
}

/// The set that two words name: `set`, and the name of one.
fn set_named(first: &[u8], second: &[u8]) -> Option<SetName>
    ensures { MatchOption result ((set : SetName) → first.now ∷ (second.now ∷ []) ≡ set_line set → ⊥) (λ set. first.now ∷ (second.now ∷ []) ≡ set_line set) }
{
    if first != b"set".as_slice() {
        return None;
    }
    SetName::named(second)
}

/// What a line says that isn't the set line. None where it breaks the grammar.
pub fn line_in<'t>(mut words: Words<'t>) -> Option<Labelled<'t>>
    ensures { MatchOption result (IsWellFormed words.entry → ⊥)
        (λ said. (label_names said ≡ names_in words.entry) × IsSaid words.entry (said_of said.statement)) }
{
    let Some(first) = words.next_word() else {
        return Some(Labelled {
            label: None,
            statement: Statement::Nothing,
        });
    };
    let Some(name) = label_in(first) else {
        let Some(statement) = unlabelled_in(first, words) else {
            return None;
        };
        return Some(Labelled {
            label: None,
            statement,
        });
    };
    let Some(mnemonic) = words.next_word() else {
        return Some(Labelled {
            label: Some(name),
            statement: Statement::Nothing,
        });
    };
    let Some(statement) = instruction_in(mnemonic, words) else {
        return None;
    };
    Some(Labelled {
        label: Some(name),
        statement,
    })
}

/// The name of a label: a name and a colon.
fn label_in(word: &[u8]) -> Option<&[u8]>
    ensures { MatchOption result (is_label word.now ≡ false) (λ name. (is_label word.now ≡ true) × (name.now ≡ name_in_label word.now)) }
{
    let Some(name) = word.strip_suffix(b":") else {
        return None;
    };
    if is_name(name) { Some(name) } else { None }
}

/// What a first word that is no label says with the words after it: a data word, or an instruction.
fn unlabelled_in<'t>(first: &[u8], words: Words<'t>) -> Option<Statement<'t>>
    requires { is_label first.now ≡ false }
    ensures { MatchOption result (IsWellFormed (first.now ∷ words.entry) → ⊥) (λ statement. IsSaid (first.now ∷ words.entry) (said_of statement)) }
{
    if first == b"data".as_slice() {
        datum_in(words)
    } else {
        instruction_in(first, words)
    }
}

/// The data word that words write.
fn datum_in<'t>(mut words: Words<'t>) -> Option<Statement<'t>>
    ensures { MatchOption result (IsWellFormed (codes "data" ∷ words.entry) → ⊥) (λ statement. IsSaid (codes "data" ∷ words.entry) (said_of statement)) }
{
    let Some(word) = words.next_word() else {
        return None;
    };
    if !words.are_none() {
        return None;
    }
    let Some(datum) = integer_in(word) else {
        return None;
    };
    Some(Statement::Datum(datum))
}

/// The instruction of a word, with the fields that the words after it write.
fn instruction_in<'t>(mnemonic: &[u8], words: Words<'t>) -> Option<Statement<'t>>
    ensures { MatchOption result (IsNoInstruction (mnemonic.now ∷ words.entry)) (λ statement. IsInstructionSaid (mnemonic.now ∷ words.entry) (said_of statement)) }
{
    let Some(opcode) = Opcode::named(mnemonic) else {
        return None;
    };
    let Some(fields) = fields_in(words, opcode.form()) else {
        return None;
    };
    Some(match fields.target {
        Target::Place(place) => Statement::Instruction(opcode.instr(&fields, place)),
        Target::Name(name) => Statement::Named(opcode.instr(&fields, 0), name),
    })
}

/// The instruction with another target, where it has one.
pub fn with_target(instr: Instr, place: u32) -> Instr
    ensures { result ≡ with_target place instr }
{
    match instr {
        Instr::Jmp { .. } => Instr::Jmp { target: place },
        Instr::Blt { a, b, .. } => Instr::Blt {
            a,
            b,
            target: place,
        },
        Instr::Beq { a, b, .. } => Instr::Beq {
            a,
            b,
            target: place,
        },
        Instr::Call { line, .. } => Instr::Call {
            target: place,
            line,
        },
        other => other,
    }
}
