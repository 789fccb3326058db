ghost use Rattle.source_tree.specs.Fits.{MeaningFits, StatementsKeepFits};

/// From a state in which each variable, parameter, local and element lies in its range and each array has its length a
/// statement leads to such a state only, whether or not the rules of names are kept.
pub fn statements_keep_what_fits()
    ensures { StatementsKeepFits }
{}

/// Where no declared range is empty such a state is there at the start, and where the source ends.
pub fn meaning_fits()
    ensures { MeaningFits }
{}
