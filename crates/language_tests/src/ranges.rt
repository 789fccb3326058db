use crate::programs::parsed;
use moduli_sets::SetName;
use name_check::check_names;
use range_inference::{Interval, RangeFault, Ranged, infer};
use std::alloc::Global;
use std::test::Fail;

/// Nodes of expressions in a procedure and outside; the interval of `40 * n` is too wide for `pocket` alone.
const JOB: &str = "\
var x: -5..9;
array a[3]: 0..7;
proc p(n: 2..3) do x := 40 * n; end
x := a[1] - x;
print x mod 4;
";

fn from_to(low: i128, high: i128) -> Interval {
    Interval { low, high }
}

/// The intervals of JOB on a set, or its fault. None where JOB is no program or breaks a rule of names.
fn inferred(alloc: Global, set: SetName) -> Result<Option<Result<Ranged, RangeFault>>, Fail> {
    let Ok(program) = parsed(alloc, JOB)? else {
        return Ok(None);
    };
    let Ok(checked) = check_names(alloc, program) else {
        return Ok(None);
    };
    Ok(Some(infer(alloc, checked, set)))
}

#[test]
fn nodes_have_intervals(rt: HostRuntime) -> Result<(), Fail> {
    match inferred(rt.alloc(), SetName::Hall)? {
        Some(Ok(ranged)) => {
            let wanted = [
                from_to(40, 40),
                from_to(2, 3),
                from_to(80, 120),
                from_to(1, 1),
                from_to(0, 7),
                from_to(-5, 9),
                from_to(-9, 12),
                from_to(-5, 9),
                from_to(4, 4),
                from_to(0, 3),
            ];
            assert_eq!(rt; ranged.intervals(), wanted.as_slice());
        }
        _ => assert!(rt; false),
    }
    Ok(())
}

#[test]
fn first_too_wide_has_its_line(rt: HostRuntime) -> Result<(), Fail> {
    match inferred(rt.alloc(), SetName::Pocket)? {
        Some(Err(fault)) => assert_eq!(rt; fault, RangeFault::TooWide(3)),
        _ => assert!(rt; false),
    }
    Ok(())
}
