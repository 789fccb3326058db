ghost use Rattle.std.specs.Prelude.{◌≡◌, [], IfOk, IfErr, OnOk};
ghost use Rattle.range_inference.specs.Bound.{bound_of};
ghost use Rattle.range_inference.specs.Demands.{demands_of, intervals_in, too_wide};
ghost use Rattle.range_inference.specs.Outcome.{IsFirst, IsJudged};

use crate::bound::Bound;
use crate::declarations::declarations;
use crate::fault::RangeFault;
use crate::interval::Interval;
use crate::statements::statements;
use moduli_sets::SetName;
use name_check::Checked;
use name_table::NameTable;
use source_tree::Program;
use sqlite_items::Items;
use std::alloc::Global;

/// A checked program of which nothing is too wide for the range of a set, with the interval of each node.
#[derive(Debug, Drop)]
pub struct Ranged {
    checked: Checked,
    set: SetName,
    intervals: Items<Interval>,
    ghost narrow: { too_wide (bound_of set) checked.program ≡ [] },
    ghost right: { intervals ≡ intervals_in checked.program },
}

impl Ranged {
    /// The checked program.
    pub fn checked(&self) -> &Checked
        ensures { result.now ≡ self.now.checked }
    {
        &self.checked
    }

    /// The set in whose range all intervals lie.
    pub fn set(&self) -> SetName
        ensures set { result ≡ self.now.set }
        ensures narrow { too_wide (bound_of self.now.set) self.now.checked.program ≡ [] }
    {
        self.set
    }

    /// The interval of each node of an expression. Outermost expressions stand in text order; in one the operands or the
    /// index come before their node.
    pub fn intervals(&self) -> &[Interval]
        ensures { result.now ≡ intervals_in self.now.checked.program }
    {
        self.intervals.as_slice()
    }
}

/// The intervals of a checked program. TooWide exactly where a declared bound, the number of a `limit` or the interval of a
/// node doesn't lie in the range of the set, with the line of the first.
pub fn infer(alloc: Global, checked: Checked, set: SetName) -> Result<Ranged, RangeFault>
    ensures same { IfOk result (λ ranged. (ranged.checked ≡ checked) × (ranged.set ≡ set)) }
    ensures narrow { OnOk result (too_wide (bound_of set) checked.program ≡ []) }
    ensures first { IfErr result (λ fault. IsFirst (too_wide (bound_of set) checked.program) fault) }
{
    let intervals = intervals_of(alloc, checked.program(), Bound::of(set))?;
    Ok(Ranged {
        checked,
        set,
        intervals,
    })
}

/// Judges a program, and gives the interval of each node.
fn intervals_of(
    alloc: Global,
    program: &Program,
    bound: Bound,
) -> Result<Items<Interval>, RangeFault>
    ensures value { IfOk result (λ intervals. intervals ≡ intervals_in program.now) }
    ensures first { IsJudged bound.value (demands_of program.now) result }
{
    let mut table = NameTable::new(alloc);
    let mut intervals = Items::new(alloc);
    declarations(
        alloc,
        &program.declarations,
        &mut table,
        bound,
        &mut intervals,
    )?;
    statements(&program.statements, &table, bound, &mut intervals)?;
    Ok(intervals)
}
