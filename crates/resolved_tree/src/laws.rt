ghost use Rattle.resolved_tree.specs.Sameness.{ResolvedMeansTheSame};

/// Where no rule of names is broken and nothing is too wide for a set, the resolved tree of a source means what the
/// source means: no value leaves the 128 bits of a word, and no integer is put at a number that isn't declared.
pub fn resolved_means_the_same()
    ensures { ResolvedMeansTheSame }
{}
