//! What holds of the rank and of queues. Each law is the contract of a function that does nothing.
ghost use Rattle.std.specs.Prelude.{IsPermutation, IsSortedBy};
ghost use Rattle.std.specs.List.Sorted.{IsStableBy};
ghost use Rattle.submission_queue.specs.Rank.{outranks, ranked};
ghost use Rattle.submission_queue.specs.Laws.{BestOfAllLaw, BestOfBothLaw, CrowdingLaw, OffersAppendLaw, OffersRestoreLaw};
ghost use Rattle.submission_queue.specs.Numbers.{NumbersLaw};

use crate::Submission;

/// Ranking only rearranges: no claim stands before a better one, and equal claims stand in the
/// order in which they came.
pub fn the_rank_is_a_stable_sort(items: &[Submission])
    ensures same { IsPermutation items.now (ranked items.now) }
    ensures sorted { IsSortedBy outranks (ranked items.now) }
    ensures stable { IsStableBy outranks items.now (ranked items.now) }
{
    // Nothing is done with them: the clauses speak of any items.
    let _items = items;
}

/// After any offers with no take between, a queue keeps the best of what waited and of all that was
/// offered, the refused ones included, as many as it has places.
pub fn a_queue_keeps_the_best_of_all_offers()
    ensures empty { BestOfAllLaw }
    ensures waiting { BestOfBothLaw }
{}

/// Nothing valid is crowded out for free: whatever `valid` says of submissions, a valid one that
/// was offered claims no better than the first valid one that waits, or invalid ones fill every
/// place.
pub fn nothing_valid_is_crowded_out_for_free()
    ensures { CrowdingLaw }
{}

/// A queue is made anew from its submissions: each is offered in the order of the rank, none is
/// refused or ejects another, and they wait as they did.
pub fn a_queue_is_made_anew_by_its_rank()
    ensures appends { OffersAppendLaw }
    ensures restores { OffersRestoreLaw }
{}

/// Submissions that each take the next number stay numbered while they wait, whatever is offered or
/// taken out.
pub fn submissions_stay_numbered()
    ensures { NumbersLaw }
{}
