use crate::programs::parsed;
use name_check::check_names;
use std::test::Fail;

/// Names of each kind, in two procedures and outside, each used in each way that it may be.
const JOB: &str = "\
var i: 0..9;
proc set(new: 0..9) var old: 0..9; do old := i; i := new; end
array a[3]: 0..9;
proc fill(k: 0..9) do for k := 0 to 2 do a[k] := k; end set(a[0]); end
for i := 0 to a[1] do read a[i]; fill(-i); end
";

#[test]
fn uses_are_tied(rt: HostRuntime) -> Result<(), Fail> {
    match parsed(rt.alloc(), JOB)? {
        Ok(program) => match check_names(rt.alloc(), program) {
            Ok(checked) => {
                let ties = [3, 0, 0, 2, 6, 4, 6, 6, 1, 4, 0, 4, 4, 0, 5, 0];
                assert_eq!(rt; checked.ties(), ties.as_slice());
                assert_eq!(rt; checked.program().declarations.len(), 4);
            }
            Err(_) => assert!(rt; false),
        },
        Err(_) => assert!(rt; false),
    }
    Ok(())
}
