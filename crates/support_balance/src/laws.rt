//! What holds of turns. Each law is the contract of a function that does nothing.
ghost use Rattle.support_balance.specs.Laws.{SquaresLaw, UniqueLaw, BalanceLaw};

/// The amounts of a turn are unique, though no rule says how they are found: the turn's units are
/// the lowest ones, by level and then by position.
pub fn the_amounts_of_a_turn_are_unique()
    ensures { UniqueLaw }
{}

/// Where a voter had given its whole stake to members that it nominates, a turn at it does not
/// raise the sum of the squared supports.
pub fn a_turn_does_not_raise_the_squares()
    ensures { SquaresLaw }
{}

/// Where each voter that nominates a member had given its whole stake, a balancing does not raise
/// the sum of the squared supports, however many rounds it makes.
pub fn a_balancing_does_not_raise_the_squares()
    ensures { BalanceLaw }
{}
