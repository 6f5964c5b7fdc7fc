ghost use Rattle.rs_reach.specs.Laws.{Ends, FindsReached, FindsOnce, ReadsAgree, RootsDiffer};

/// A search ends, finds each function that is reached once and no other, and asks next what the answers
/// so far lead to.
pub fn search_is_exact()
    ensures ends { Ends }
    ensures reached { FindsReached }
    ensures once { FindsOnce }
    ensures reads { ReadsAgree }
    ensures roots { RootsDiffer }
{}
