ghost use Rattle.object_bytes.specs.Laws.{LoadedAreSpelled, SpelledAreLoaded};

/// Bytes that have no fault spell the program that is read of them, and it is sound. The spelling of a sound program has no
/// fault and is read as that program, so that different programs have different spellings.
pub fn spelled_and_loaded()
    ensures spelled { LoadedAreSpelled }
    ensures loaded { SpelledAreLoaded }
{}
