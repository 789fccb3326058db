ghost use Rattle.std.specs.Prelude.{◌≡◌, ◌+◌, ◌<◌, ◌≤◌, ◌^◌, [], ◌∷◌, ◌++◌, length, map, count_by, All, None, List, ℕ, MatchResult};
ghost use Rattle.plain_text.specs.Lookup.{lookup};
ghost use Rattle.machine_table.specs.Objects.{code_of, set_of_object, words_of};
ghost use Rattle.assembler.specs.Words.{said_in};
ghost use Rattle.assembler.specs.Statements.{names_in};
ghost use Rattle.assembler.specs.Assembly.{IsRefusal, Spells};
ghost use Rattle.assembler.specs.Reading.{IsSaid, Said, is_instr};
ghost use Rattle.assembler.specs.Lines.{label_names, label_of, said_of};
ghost use Rattle.assembler.specs.Taken.{IsFirstUntied, IsLinked, IsLonger, IsRefusedAt, IsTaken, IsThere, IsTwice, IsUntied, fault_line, saids_of};

use crate::AsmFault;
use crate::statement::{Labelled, Statement, with_target};
use machine_table::{Instr, Object, ObjectFault};
use moduli_sets::SetName;
use name_table::NameTable;
use std::alloc::Global;

/// The most instructions of a program, and the most data words.
const MOST: usize = 65_536;

/// What the set line and the lines after it say.
#[derive(Drop)]
pub(crate) struct Program<'t> {
    set: SetName,
    /// The line of the set.
    set_number: u32,
    /// What each line after it says.
    statements: Vec<Statement<'t>>,
    /// The number of the next instruction, for each label.
    places: NameTable<u32>,
    /// How many instructions there are.
    instructions: u32,
}

/// Instructions and data words, each with its line.
#[derive(Drop)]
struct Linked {
    code: Vec<Instr>,
    code_lines: Vec<u32>,
    words: Vec<i128>,
    data_lines: Vec<u32>,
}

impl<'t> Program<'t> {
    /// Of no lines but the set line, which has this number.
    pub(crate) fn new(alloc: Global, set: SetName, set_number: u32) -> Program<'t>
        ensures set { result.set ≡ set }
        ensures set_number { result.set_number ≡ set_number }
        ensures statements { result.statements.items ≡ [] }
        ensures places { result.places ≡ [] }
        ensures instructions { result.instructions ≡ 0 }
    {
        Program {
            set,
            set_number,
            statements: Vec::new(alloc),
            places: NameTable::new(alloc),
            instructions: 0,
        }
    }

    /// Takes one line more. TwiceNamed where a line before it has the same label.
    pub(crate) fn take(
        &mut self,
        alloc: Global,
        said: Labelled<'t>,
        number: u32,
    ) -> Result<(), AsmFault>
        requires { self.old.instructions < number }
        ensures { (lines : List (List (List ℕ))) → (words : List (List ℕ)) → IsTaken lines self.old → number ≡ length lines + 1
            → label_names said.entry ≡ names_in words → IsSaid words (said_of said.entry.statement)
            → MatchResult result (λ _. IsTaken (lines ++ words ∷ []) self.new) (IsRefusedAt lines words) }
    {
        declare(
            alloc,
            &mut self.places,
            said.label,
            self.instructions,
            number,
        )?;
        self.instructions += instructions_in(&said.statement);
        self.statements.push(said.statement)?;
        Ok(())
    }

    /// The object of all lines; or the line of the first target that no line names, or that of the first rule that the
    /// program breaks.
    pub(crate) fn object(&self, alloc: Global) -> Result<Object, AsmFault>
        requires { self.now.set_number + length self.now.statements.items < 2 ^ 32 }
        ensures { (text : List ℕ) → IsTaken (said_in text) self.now → MatchResult result
            (λ object. Spells text (set_of_object object) (code_of object) (words_of object))
            (IsRefusal text) }
    {
        let Linked {
            code,
            code_lines,
            words,
            data_lines,
        } = self.linked(alloc)?;
        match Object::check(self.set, code, words) {
            Ok(object) => Ok(object),
            Err(fault) => Err(AsmFault::Unsound(fault, line_of(fault, &code_lines, &data_lines))),
        }
    }

    /// The instructions, with their targets, and the data words. UnknownName at the first target that no line names.
    fn linked(&self, alloc: Global) -> Result<Linked, AsmFault>
        requires { self.now.set_number + length self.now.statements.items < 2 ^ 32 }
        ensures { MatchResult result
            (IsLinked self.now.places (self.now.set_number + 1) (saids_of self.now))
            (IsFirstUntied self.now.places (self.now.set_number + 1) (saids_of self.now)) }
    {
        let mut linked = Linked::new(alloc);
        let mut number = self.set_number;
        for statement in &self.statements {
            number += 1;
            linked.take(*statement, &self.places, number)?;
        }
        Ok(linked)
    }
}

/// Puts the name of a label with its place after the others. TwiceNamed where it is there already.
fn declare(
    alloc: Global,
    places: &mut NameTable<u32>,
    label: Option<&[u8]>,
    place: u32,
    number: u32,
) -> Result<(), AsmFault>
    ensures { MatchResult result
        (λ _. (places.new ≡ places.old ++ map (λ name. (name, place)) (label_of label.entry)) × All (λ name. lookup name places.old ≡ None) (label_of label.entry))
        (IsTwice places.old (label_of label.entry) number) }
{
    let Some(name) = label else {
        return Ok(());
    };
    if places.get(name).is_some() {
        return Err(AsmFault::TwiceNamed(number));
    }
    places.declare(alloc, name, place)?;
    Ok(())
}

/// How many instructions it is: one, or none.
fn instructions_in(statement: &Statement) -> u32
    ensures count { result ≡ count_by is_instr (said_of statement.now ∷ []) }
    ensures few { result ≤ 1 }
{
    match statement {
        Statement::Nothing | Statement::Datum(_) => 0,
        Statement::Instruction(_) | Statement::Named(..) => 1,
    }
}

impl Linked {
    /// Nothing so far.
    fn new(alloc: Global) -> Linked
        ensures code { result.code.items ≡ [] }
        ensures code_lines { result.code_lines.items ≡ [] }
        ensures words { result.words.items ≡ [] }
        ensures data_lines { result.data_lines.items ≡ [] }
    {
        Linked {
            code: Vec::new(alloc),
            code_lines: Vec::new(alloc),
            words: Vec::new(alloc),
            data_lines: Vec::new(alloc),
        }
    }

    /// Takes what one line more says. UnknownName where its target is a name that has no place.
    fn take(
        &mut self,
        statement: Statement,
        places: &NameTable<u32>,
        number: u32,
    ) -> Result<(), AsmFault>
        ensures { (n : ℕ) → (saids : List Said) → IsLinked places.now n saids self.old → number ≡ n + length saids
            → MatchResult result (λ _. IsLinked places.now n (saids ++ said_of statement.entry ∷ []) self.new) (IsUntied places.now (said_of statement.entry) number) }
    {
        match statement {
            Statement::Nothing => Ok(()),
            Statement::Instruction(instr) => self.push_instr(instr, number),
            Statement::Named(instr, name) => match places.get(name) {
                Some(place) => self.push_instr(with_target(instr, *place), number),
                None => Err(AsmFault::UnknownName(number)),
            },
            Statement::Datum(x) => self.push_datum(x, number),
        }
    }

    /// Puts an instruction with its line at the end.
    fn push_instr(&mut self, instr: Instr, number: u32) -> Result<(), AsmFault>
        ensures { MatchResult result (λ _. IsLonger self.old (instr ∷ []) (number ∷ []) [] [] self.new) (λ fault. fault ≡ AsmFault.NoMemory) }
    {
        self.code.push(instr)?;
        self.code_lines.push(number)?;
        Ok(())
    }

    /// Puts a data word with its line at the end.
    fn push_datum(&mut self, x: i128, number: u32) -> Result<(), AsmFault>
        ensures { MatchResult result (λ _. IsLonger self.old [] [] (x ∷ []) (number ∷ []) self.new) (λ fault. fault ≡ AsmFault.NoMemory) }
    {
        self.words.push(x)?;
        self.data_lines.push(number)?;
        Ok(())
    }
}

/// The line of a fault: that of its instruction or data word, and where there are too many that of the first too many.
fn line_of(fault: ObjectFault, code_lines: &[u32], data_lines: &[u32]) -> u32
    requires { IsThere fault (length code_lines.now) (length data_lines.now) }
    ensures { result ≡ fault_line fault code_lines.now data_lines.now }
{
    match fault {
        ObjectFault::TooMuchCode => code_lines[MOST],
        ObjectFault::TooMuchData => data_lines[MOST],
        ObjectFault::BadRegister(n)
        | ObjectFault::BadTarget(n)
        | ObjectFault::BadAddress(n)
        | ObjectFault::BadConstant(n) => code_lines[n as usize],
        ObjectFault::BadDatum(n) => data_lines[n as usize],
    }
}
