ghost use Rattle.std.specs.Prelude.{◌≡◌, ◌<◌, ◌≤◌, ℕ, suc, List, length, take};
ghost use Rattle.source_lexer.specs.declared.token.TokenKind.{TokenKind as KindOfToken};
ghost use Rattle.source_parser.specs.Counting.{IsOver, count_of};
ghost use Rattle.source_parser.specs.Prefixes.{DeepAt, IsPrefix, SpellsKinds, StopsAt};

/// At most one answer fits a list of kinds of tokens, whatever the limits: one place, one fault, and no program where there
/// is one.
pub fn one_answer_fits()
    ensures stops { (depth width place other : ℕ) (kinds : List KindOfToken)
        → StopsAt depth width kinds place → StopsAt depth width kinds other → place ≡ other }
    ensures deep { (depth width place other : ℕ) (kinds : List KindOfToken)
        → DeepAt depth width kinds place → DeepAt depth width kinds other → place ≡ other }
    ensures apart { (depth width place other : ℕ) (kinds : List KindOfToken)
        → StopsAt depth width kinds place → DeepAt depth width kinds other → ⊥ }
    ensures stops_no_program { (depth width place : ℕ) (kinds : List KindOfToken)
        → StopsAt depth width kinds place → SpellsKinds depth width kinds → ⊥ }
    ensures deep_no_program { (depth width place : ℕ) (kinds : List KindOfToken)
        → DeepAt depth width kinds place → SpellsKinds depth width kinds → ⊥ }
{}

/// A token nests too deep where, counted from the first on, it is the first over a limit: the 65th open `if`, `for` or
/// `while`, or the 201st token with weight in one outermost expression.
pub fn deep_is_the_first_over_a_limit()
    ensures counted { (depth width place : ℕ) (kinds : List KindOfToken)
        → DeepAt depth width kinds place
        → IsOver depth width (count_of (take (suc place) kinds))
        × ((earlier : ℕ) → earlier ≤ place → IsOver depth width (count_of (take earlier kinds)) → ⊥) }
    ensures deep { (depth width place : ℕ) (kinds : List KindOfToken)
        → place < length kinds
        → IsPrefix (take (suc place) kinds)
        → IsOver depth width (count_of (take (suc place) kinds))
        → ((earlier : ℕ) → earlier ≤ place → IsOver depth width (count_of (take earlier kinds)) → ⊥)
        → DeepAt depth width kinds place }
{}
