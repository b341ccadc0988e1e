//! What verdicts say. Each law is the contract of a function that does nothing.
ghost use Rattle.election_check.specs.Laws.{PlainYesIsPassing, PackedYesIsAccepting, FeasibleIsPackable, PackedExpands};

/// The verdict on plain weights is Yes exactly where they are feasible and no target outside
/// outweighs.
pub fn a_plain_yes_is_passing()
    ensures { PlainYesIsPassing }
{}

/// Where the verdict on bytes with a claimed score is Yes, they are a solution, the verdict on the
/// weights that it expands to is Yes, and their score is the claimed one.
pub fn a_packed_yes_is_a_plain_yes()
    ensures { PackedYesIsAccepting }
{}

/// Feasible weights can be packed, where each edge gives something: each voter nominates no more
/// targets than a solution has groups, and has at most one edge to each.
pub fn feasible_weights_are_packable()
    ensures { FeasibleIsPackable }
{}

/// Where feasible weights pack without losing a member, the solution expands to a Yes: its entries
/// have no fault, and its targets fill the seats. Whether some target outside outweighs is another
/// question, since the packed amounts are not those that were packed.
pub fn packed_weights_expand()
    ensures { PackedExpands }
{}
