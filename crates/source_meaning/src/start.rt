ghost use Rattle.std.specs.Prelude.{◌≡◌, length, map, replicate, IfOk};
ghost use Rattle.resolved_tree.specs.Meaning.{state_at_start};
ghost use Rattle.resolved_tree.specs.Slots.{start_elements, start_integer};
ghost use Rattle.source_meaning.specs.Follows.{state_of};

use crate::machine::Machine;
use resolved_tree::{Slot, start};
use sqlite_items::Items;
use std::alloc::{AllocError, Global};

/// A machine in which each slot is at its start, with all the memory that a run takes. AllocError where memory runs out.
pub fn machine_at_start<'a>(
    alloc: Global,
    slots: &[Slot],
    input: &'a [i128],
    limit: u64,
) -> Result<Machine<'a>, AllocError>
    ensures state { IfOk result (λ machine. state_of machine ≡ state_at_start slots.now input.now) }
    ensures left { IfOk result (λ machine. machine.left ≡ limit) }
    ensures integers { IfOk result (λ machine. length machine.integers ≡ length slots.now) }
    ensures held { IfOk result (λ machine. length machine.held ≡ length slots.now) }
{
    let integers = Items::from_vec(integers(alloc, slots)?);
    let held = Items::from_slice(alloc, integers.as_slice())?;
    let arrays = arrays(alloc, slots)?;
    Ok(Machine {
        integers,
        arrays,
        held,
        input,
        left: limit,
    })
}

/// The integers at which slots start.
fn integers(alloc: Global, slots: &[Slot]) -> Result<Vec<i128>, AllocError>
    ensures { IfOk result (λ found. found.items ≡ map start_integer slots.now) }
{
    slots.iter().map(|s| integer(*s)).collect(alloc)
}

/// The integer at which a slot starts.
fn integer(slot: Slot) -> i128
    ensures { result ≡ start_integer slot }
{
    match slot {
        Slot::Variable { range, .. } => start(range),
        Slot::Array { .. } => 0,
        Slot::Nothing => 0,
    }
}

/// The elements at which slots start.
fn arrays(alloc: Global, slots: &[Slot]) -> Result<Vec<Items<i128>>, AllocError>
    ensures { IfOk result (λ found. found.items ≡ map start_elements slots.now) }
{
    let mut found = Vec::new(alloc);
    for s in slots {
        found.push(elements(alloc, *s)?)?;
    }
    Ok(found)
}

/// The elements at which a slot starts.
fn elements(alloc: Global, slot: Slot) -> Result<Items<i128>, AllocError>
    ensures { IfOk result (λ found. found ≡ start_elements slot) }
{
    match slot {
        Slot::Array { length, range, .. } => copies(alloc, start(range), length.unsigned_abs()),
        Slot::Variable { .. } => Ok(Items::new(alloc)),
        Slot::Nothing => Ok(Items::new(alloc)),
    }
}

/// So many copies of an integer; where there is no room for so many memory counts as run out.
fn copies(alloc: Global, value: i128, count: u128) -> Result<Items<i128>, AllocError>
    ensures { IfOk result (λ found. found ≡ replicate count value) }
{
    if count < 18446744073709551616 {
        Ok(Items::from_vec(vec![in alloc; value; count as usize]?))
    } else {
        Err(AllocError)
    }
}
