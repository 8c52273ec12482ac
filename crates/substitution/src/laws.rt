//! Laws of substitution.

ghost use Rattle.substitution.specs.Laws.{ExprsKeepTheirDepth, ExprsKeepTheirOrder, ExprsKeepTheirWorth, ExprsLoseTheNames, ExprsStayWithoutTheNames, ProcsKeepTheirDepth, ProcsKeepTheirOrder, ProcsLoseTheNames, ProcsStayWithoutTheNames};

/// What a substitution keeps of an expression: its depth, whether it is in order, each free name but those that get a value, and its worth, which is
/// that with the names bound to the values. An expression none of whose free names gets a value stays as it is.
pub fn expressions_keep()
    ensures depth { ExprsKeepTheirDepth }
    ensures order { ExprsKeepTheirOrder }
    ensures free { ExprsLoseTheNames }
    ensures closed { ExprsStayWithoutTheNames }
    ensures worth { ExprsKeepTheirWorth }
{}

/// What a substitution keeps of a process: its depth, whether it is in order, and each free name but those that get a value. A process none of
/// whose free names gets a value stays as it is.
pub fn processes_keep()
    ensures depth { ProcsKeepTheirDepth }
    ensures order { ProcsKeepTheirOrder }
    ensures free { ProcsLoseTheNames }
    ensures closed { ProcsStayWithoutTheNames }
{}
