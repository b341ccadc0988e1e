//! What holds of weights. Each law is the contract of a function that does nothing.
ghost use Rattle.weight_book.specs.Answered.{AnsweredLaw, PassingLaw, WitnessLaw};
ghost use Rattle.weight_book.specs.Exchange.{ExchangeLaw};
ghost use Rattle.weight_book.specs.GivenEdges.{OneOrderLaw};
ghost use Rattle.weight_book.specs.Proportional.{AveragingLaw};

/// Weights that pass the check are proportional, whoever made them: each group of voters that holds
/// at least the stake of `r` seats and agrees on `r` targets nominates at least `r` of the members.
/// The proof averages what a group has left over the targets that it agrees on, as Cevallos and
/// Stewart do.
pub fn weights_that_pass_are_proportional()
    ensures { AveragingLaw }
{}

/// Edges sum to the same by voter and by target: what the voters give is what the targets get.
pub fn voters_give_what_targets_get()
    ensures { ExchangeLaw }
{}

/// Edges without those that give nothing stand in one order alone, by voter and then by target, and
/// support each target as all the edges do. Whoever sorts them comes to the same edges.
pub fn edges_that_give_stand_in_one_order()
    ensures { OneOrderLaw }
{}

/// Where each target outside has feasible weights of the committee that leave its nominators less
/// than the price of a seat, be they other weights for each, nobody is denied: each group of voters
/// that all nominate one target outside has as many members, among all that it nominates, as its
/// stake stands for seats. This is PJR+ of Brill and Peters, with stakes.
pub fn committees_with_witnesses_are_answered()
    ensures { WitnessLaw }
{}

/// A committee whose weights pass the check denies nobody, whoever made the weights.
pub fn committees_that_pass_are_answered()
    ensures { PassingLaw }
{}

/// A committee that denies nobody is proportional.
pub fn answered_committees_are_proportional()
    ensures { AnsweredLaw }
{}
