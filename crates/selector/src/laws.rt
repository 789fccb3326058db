ghost use Rattle.selector.specs.Laws.{CodeLengthsStand, JumpsStayWithin};

/// How many instructions a statement has doesn't depend on the words and places that it names, nor on where it stands: only
/// on what its names are declared as.
pub fn code_lengths_stand()
    ensures { CodeLengthsStand }
{}

/// The code of a statement jumps to its own instructions or to the place behind them, and calls only first instructions of
/// what names stand for.
pub fn jumps_stay_within()
    ensures { JumpsStayWithin }
{}
