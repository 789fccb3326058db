ghost use Rattle.range_inference.specs.Watched.{IntervalsHold, TestsPass, ValuesWithinBound};

/// Where no rule of names is broken, a test that each number of each interval of a program passes changes nothing in what
/// the program means, wherever the values of nodes are tested by it.
pub fn tests_pass()
    ensures { TestsPass }
{}

/// In every evaluation every value of a node lies in the interval of the node.
pub fn intervals_hold()
    ensures { IntervalsHold }
{}

/// Where nothing is too wide for a bound, in every evaluation every value of a node lies from -bound to bound.
pub fn values_within_bound()
    ensures { ValuesWithinBound }
{}
