//! What holds of payouts and slashes. Each law is the contract of a function that does nothing.
ghost use Rattle.era_book.specs.Committee.{SupportLaw, SpentLaw, BackersLaw, SoundLaw, OrderLaw};
ghost use Rattle.era_book.specs.Laws.{PayoutLaw, TelescopeLaw, RewardLaw, DueLaw, InOrderLaw, RewardOnLaw, DueOnLaw, WaitingLaw, PutLaw, ValuesLaw, BareLaw, SameErasLaw, WholeLaw, BackedLaw};
ghost use Rattle.era_book.specs.Limits.{AreTheLimits};

/// A validator and its backers together are paid at most what is to be paid to them: each part is
/// rounded down.
pub fn a_payout_is_within_its_value()
    ensures { PayoutLaw }
{}

/// Two reports one after the other make due what the greater one alone would, so that no unit is
/// due twice.
pub fn dues_telescope()
    ensures { TelescopeLaw }
{}

/// Whatever happens to an era book, all that is paid of one era, over all its validators, is at
/// most the reward of that era.
pub fn payouts_are_within_the_reward()
    ensures { RewardLaw }
{}

/// Whatever happens to an era book, all that one era makes due from one account, over all its
/// validators and all reports, is at most what the exposures of that era hold for it.
pub fn dues_are_within_the_exposures()
    ensures { DueLaw }
{}

/// Whatever happens to an era book, its eras are in order: those at the start are, and so are those
/// after any event where those before it were.
pub fn eras_stay_in_order()
    ensures { InOrderLaw }
{}

/// What holds of payouts from the start on holds from any eras in order on: with what was paid of
/// the reward of an era before, all its later payouts are at most the reward.
pub fn later_payouts_are_within_the_reward()
    ensures { RewardOnLaw }
{}

/// What holds of dues from the start on holds from any eras in order on: with what an era made due
/// from an account before, all that it makes due later is at most what its exposures hold for it.
pub fn later_dues_are_within_the_exposures()
    ensures { DueOnLaw }
{}

/// What is taken out was queued, and is taken out once: from any eras on, what is taken out for one
/// account, and what waits for it then, are together at most what waited before and all that is
/// queued for it.
pub fn what_is_taken_was_queued()
    ensures { WaitingLaw }
{}

/// What is exposed of a committee are its edges: the backers of a member give what the edges to it
/// do, no account backs a member twice, and all exposures together hold for an account at most what
/// its own edges give. So the exposures of an elected committee are sound, and the edges in the
/// order of the voters elect it likewise.
pub fn exposures_are_the_edges()
    ensures support { SupportLaw }
    ensures spent { SpentLaw }
    ensures distinct { BackersLaw }
    ensures sound { SoundLaw }
    ensures order { OrderLaw }
{}

/// Eras are made anew from what they show: a book at their number without members gets the members
/// of each, which it then shows, and is the book that they were in.
pub fn eras_are_made_anew_from_their_members()
    ensures put { PutLaw }
    ensures values { ValuesLaw }
    ensures bare { BareLaw }
    ensures same { SameErasLaw }
{}

/// Whatever happens to an era book, the members of each era stay whole, and era 0 has none, as long
/// as the exposures with which eras begin are backed; those of an elected committee are.
pub fn members_stay_whole()
    ensures whole { WholeLaw }
    ensures backed { BackedLaw }
{}

/// The limit that the code names is this number.
pub fn the_limits_are_these()
    ensures { AreTheLimits }
{}
