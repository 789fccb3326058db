ghost use Rattle.std.specs.Prelude.{◌≡◌, MatchOption};
ghost use Rattle.assembler.specs.Fields.{a_register, an_integer, a_natural, a_place};
ghost use Rattle.assembler.specs.Readers.{IsRead, IsUnread, field_if, is_this};
ghost use Rattle.assembler.specs.Forms.{AreFields, AreNoFields, GoesTo, are_naturals, are_registers, are_integers, naturals_of, registers_of, integers_of};

use crate::words::{Words, integer_in, is_name, natural_in, register_in};

/// The fields that an instruction has, in this order: so many registers, so many integers, a target or none, so many
/// natural numbers. There are at most three registers, two integers and three natural numbers.
#[derive(Clone, Copy)]
pub struct Form {
    registers: usize,
    integers: usize,
    has_target: bool,
    naturals: usize,
}

/// Where a jump goes: to the instruction of a number, or to that of a name.
#[derive(Clone, Copy)]
pub enum Target<'t> {
    Place(u32),
    Name(&'t [u8]),
}

/// The fields of an instruction, each kind in order; what it doesn't have is 0.
#[derive(Clone, Copy)]
pub struct Fields<'t> {
    pub registers: [u8; 3],
    pub integers: (i128, i128),
    pub target: Target<'t>,
    pub naturals: [u32; 3],
}

impl Form {
    /// Of so many registers, integers and natural numbers.
    pub fn of(registers: usize, integers: usize, has_target: bool, naturals: usize) -> Form
        ensures { result ≡ record { registers = registers; integers = integers; has_target = has_target; naturals = naturals } }
    {
        Form {
            registers,
            integers,
            has_target,
            naturals,
        }
    }
}

/// The fields that words write. None where they write no fields of the form.
pub fn fields_in<'t>(mut words: Words<'t>, form: Form) -> Option<Fields<'t>>
    ensures { MatchOption result (AreNoFields form words.entry) (AreFields form words.entry) }
{
    let registers = registers_in(&mut words, form.registers)?;
    let integers = integers_in(&mut words, form.integers)?;
    let target = target_in(&mut words, form.has_target)?;
    let naturals = naturals_in(&mut words, form.naturals)?;
    if !words.are_none() {
        return None;
    }
    Some(Fields {
        registers,
        integers,
        target,
        naturals,
    })
}

/// The registers that the next words write, so many of three.
fn registers_in(words: &mut Words, count: usize) -> Option<[u8; 3]>
    ensures { MatchOption result (IsUnread (registers_of count) words.old)
        (λ registers. IsRead (registers_of count) (are_registers registers) words.old words.new) }
{
    let first = register_if(words, count > 0)?;
    let second = register_if(words, count > 1)?;
    let third = register_if(words, count > 2)?;
    Some([first, second, third])
}

/// The integers that the next words write, so many of two.
fn integers_in(words: &mut Words, count: usize) -> Option<(i128, i128)>
    ensures { MatchOption result (IsUnread (integers_of count) words.old)
        (λ integers. IsRead (integers_of count) (are_integers integers) words.old words.new) }
{
    let first = integer_if(words, count > 0)?;
    let second = integer_if(words, count > 1)?;
    Some((first, second))
}

/// The natural numbers that the next words write, so many of three.
fn naturals_in(words: &mut Words, count: usize) -> Option<[u32; 3]>
    ensures { MatchOption result (IsUnread (naturals_of count) words.old)
        (λ naturals. IsRead (naturals_of count) (are_naturals naturals) words.old words.new) }
{
    let first = natural_if(words, count > 0)?;
    let second = natural_if(words, count > 1)?;
    let third = natural_if(words, count > 2)?;
    Some([first, second, third])
}

/// The register that the next word writes, where one is wanted; else 0, and no word is read.
fn register_if(words: &mut Words, wanted: bool) -> Option<u8>
    ensures { MatchOption result (IsUnread (λ r. field_if wanted (a_register r)) words.old)
        (λ register. IsRead (λ r. field_if wanted (a_register r)) (is_this register) words.old words.new) }
{
    if !wanted {
        return Some(0);
    }
    let Some(word) = words.next_word() else {
        return None;
    };
    register_in(word)
}

/// The integer that the next word writes, where one is wanted; else 0, and no word is read.
fn integer_if(words: &mut Words, wanted: bool) -> Option<i128>
    ensures { MatchOption result (IsUnread (λ x. field_if wanted (an_integer x)) words.old)
        (λ integer. IsRead (λ x. field_if wanted (an_integer x)) (is_this integer) words.old words.new) }
{
    if !wanted {
        return Some(0);
    }
    let Some(word) = words.next_word() else {
        return None;
    };
    integer_in(word)
}

/// The natural number that the next word writes, where one is wanted; else 0, and no word is read.
fn natural_if(words: &mut Words, wanted: bool) -> Option<u32>
    ensures { MatchOption result (IsUnread (λ n. field_if wanted (a_natural n)) words.old)
        (λ natural. IsRead (λ n. field_if wanted (a_natural n)) (is_this natural) words.old words.new) }
{
    if !wanted {
        return Some(0);
    }
    let Some(word) = words.next_word() else {
        return None;
    };
    natural_in(word)
}

/// The target that the next word writes, where one is wanted; else the place 0, and no word is read.
fn target_in<'t>(words: &mut Words<'t>, wanted: bool) -> Option<Target<'t>>
    ensures { MatchOption result (IsUnread (λ p. field_if wanted (a_place p)) words.old)
        (λ target. IsRead (λ p. field_if wanted (a_place p)) (GoesTo target) words.old words.new) }
{
    if !wanted {
        return Some(Target::Place(0));
    }
    let Some(word) = words.next_word() else {
        return None;
    };
    if is_name(word) {
        return Some(Target::Name(word));
    }
    let Some(place) = natural_in(word) else {
        return None;
    };
    Some(Target::Place(place))
}
