// Laws of what calls do to a geometry, each for every geometry.
ghost use Rattle.sop_rows.specs.Laws.{MergesInTurn, LeaveSound, LeaveGood, LeaveWithin, LeaveValuesWithin, SweepsKeepRows, SweepsOnlyMarked};

/// A law: the merge of well made geometries is these appended one after the other from the left.
pub fn merges_go_in_turn()
    ensures { MergesInTurn }
{}

/// A law: what each call leaves is well made, where its conditions hold.
pub fn calls_leave_well_made()
    ensures sound { LeaveSound }
    ensures good { LeaveGood }
{}

/// A law: what each call leaves is within the limits of elements, heads and groups exactly where there is room.
pub fn calls_leave_within()
    ensures { LeaveWithin }
{}

/// A law: what each call leaves has its strings and lists within their limits, where what was there and what comes has.
pub fn calls_leave_values_within()
    ensures { LeaveValuesWithin }
{}

/// A law: a sweep keeps the order and the rows of what stays, and changes nothing where nothing is marked.
pub fn sweeps_keep_what_stays()
    ensures rows { SweepsKeepRows }
    ensures unmarked { SweepsOnlyMarked }
{}
