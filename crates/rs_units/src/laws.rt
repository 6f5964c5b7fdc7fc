ghost use Rattle.rs_units.specs.Laws.{MembersOnce, MembersReached, NoneMissing, OwnFirst, WantsFirst};

/// Where nothing is wanted, the members are the unit's own functions and each function of kind 2 that a path of calls
/// through functions of kind 2 leads to from them, and no other. Nothing is wanted exactly where no calls are missing;
/// else it is the first function whose calls are missing, in the order found, which begins with the own functions. The
/// numbers of members are those of items, each once.
pub fn members_are_reached()
    ensures members { MembersReached }
    ensures none { NoneMissing }
    ensures first { WantsFirst }
    ensures own { OwnFirst }
    ensures once { MembersOnce }
{}
