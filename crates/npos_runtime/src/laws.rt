//! What follows from the step of a block for every list of blocks. The functions do nothing; their
//! contracts are the laws.
ghost use Rattle.std.specs.Prelude.{◌≡◌, ◌+◌, ◌≤◌, ◌^◌, false, List, length};
ghost use Rattle.block_wire.specs.declared.block.Block.{Block as ABlock};
ghost use Rattle.stake_ledger.specs.Ledger.{IsBalanced};
ghost use Rattle.npos_runtime.specs.Step.{after_blocks};
ghost use Rattle.npos_runtime.specs.History.{StartLaw};
ghost use Rattle.npos_runtime.specs.Histories.Deposits.{DepositsLaw, DepositsGoOnLaw};
ghost use Rattle.npos_runtime.specs.Histories.Seatings.{SeatingsLaw};
ghost use Rattle.npos_runtime.specs.Histories.Sums.{SumsLaw, SumsOnLaw};
ghost use Rattle.npos_runtime.specs.Histories.Answers.{AnswersLaw};
ghost use Rattle.npos_runtime.specs.Histories.Promise.{PromiseLaw};
ghost use Rattle.npos_runtime.specs.Histories.Laws.{SoundStepLaw, SeatedSoundLaw, SeatsLaw, HeldLaw, SettledLaw, FateLaw, NoneCrowdedOutLaw};
ghost use Rattle.npos_runtime.specs.Histories.Eras.{HistoryLaw, PaidOnLaw, PaidWithinRewardLaw, ToldOnLaw, PaidAsToldLaw, SlashLaw, TakenLaw, OnceLaw, OnceOnLaw, DuesOnLaw, DueWithinStakeLaw};
ghost use Rattle.npos_runtime.specs.Histories.Deferred.{QueuedLaw, AppliedLaw, TakenInAllLaw};
ghost use Rattle.npos_runtime.specs.Kept.Laws.{AlikeStepLaw, AlikeLaw, SameKeptLaw, ToldLaw, ResumeLaw, RestoreLaw, CheckpointLaw};
ghost use Rattle.npos_runtime.specs.Kept.Soundness.{BooksStaySound, RolesStaySound, ErasStaySound, RoundStaysSound, SubmissionsStaySound, WaitingStaysSound, SlashesStaySound, StartsSound, KeepsSoundLaw, StaysSoundLaw, NoCauseLaw};
ghost use Rattle.npos_runtime.specs.Kept.Savable.{SavableStartLaw, SavableStepLaw, SavedStateLaw, RestoredStateLaw};

use crate::Runtime;
use election_check::laws::{a_packed_yes_is_a_plain_yes, a_plain_yes_is_passing};
use quota_fill::laws::every_fill_passes;
use weight_book::laws::{committees_that_pass_are_answered, weights_that_pass_are_proportional};

/// After every list of blocks all holdings equal genesis plus minted less burned. There are no more
/// blocks than numbers of blocks, which are u32.
pub fn books_balance(runtime: &Runtime)
    ensures { runtime.now.spent ≡ false → (blocks : List ABlock)
        → runtime.now.state.due + length blocks ≤ 2 ^ 32
        → IsBalanced (after_blocks runtime.now.state blocks).book }
{
    let _ = runtime.totals();
}

/// The chain of a genesis without a fault is ready, so that the laws over any chain hold from its
/// genesis on.
pub fn every_history_starts_ready()
    ensures { StartLaw }
{}

/// Every committee that is seated, from a signed solution or from the fill, has a member for each
/// seat, follows nominations, spends no voter beyond its stake, denies nobody, and so is
/// proportional.
pub fn every_seated_committee_is_sound()
    ensures step { SoundStepLaw }
    ensures blocks { SeatedSoundLaw }
{
    a_packed_yes_is_a_plain_yes();
    a_plain_yes_is_passing();
    every_fill_passes();
    committees_that_pass_are_answered();
    weights_that_pass_are_proportional();
}

/// There is no dead end: every round that is not void seats a committee when it is decided.
pub fn every_open_round_seats_a_committee()
    ensures { SeatsLaw }
{}

/// Where a block takes the snapshot of a round, the block of its decision seats exactly one
/// committee, elected from that very snapshot; or the line of the snapshot says that there were too
/// few targets or too little stake, and nobody is seated.
pub fn every_round_ends_as_it_began()
    ensures { SeatingsLaw }
{}

/// What is held of an account is the deposits of its submissions that wait.
pub fn deposits_are_held()
    ensures { HeldLaw }
{}

/// Each accepted submission has a number of its own, from 1 on without gaps, and its deposit is
/// settled once: not while it waits, and then it is burned or free again.
pub fn each_deposit_has_one_fate()
    ensures from_genesis { FateLaw }
    ensures from_any { SettledLaw }
{}

/// What is held is the deposits of what waits, each submission that was accepted waits or is settled
/// once, and by the time a round is decided each is settled for good.
pub fn deposits_are_settled()
    ensures { DepositsLaw }
{}

/// The same from any chain on, though nothing is known of what was settled before: what is held is the
/// deposits of what waits, and each submission that waits or is accepted is settled once.
pub fn deposits_go_on()
    ensures { DepositsGoOnLaw }
{}

/// Nothing valid is crowded out for free. A submission is offered to a round where its call is
/// accepted, or refused for want of a better claim. Each valid one that was offered to a round that
/// is decided either claims no more than the winner, whose claim is the score of the committee that
/// is seated; or the fill is seated, and as many deposits are burned as the queue has places.
pub fn nothing_valid_is_crowded_out_for_free()
    ensures { NoneCrowdedOutLaw }
{
    a_packed_yes_is_a_plain_yes();
}

/// Each round is decided at most once: of all elections that are seated, no two have the number of
/// one round, which is the number of the era for which it elects.
pub fn each_round_is_decided_once()
    ensures { OnceLaw }
{}

/// The eras are what the events of the blocks make of those before, and each event is accepted, as an
/// era book asks.
pub fn eras_follow_the_blocks()
    ensures { HistoryLaw }
{}

/// What an era pays is told line by line and minted, and is at most the reward of the era: each
/// payout for itself, and all payouts of the era together, over all its validators.
pub fn payouts_are_within_the_reward()
    ensures each { PaidAsToldLaw }
    ensures together { PaidWithinRewardLaw }
{}

/// The same from any chain on, though nothing is known of what was paid before: each payout is minted
/// as it is told, and all that an era pays from then on is at most its reward.
pub fn payouts_go_on()
    ensures each { ToldOnLaw }
    ensures together { PaidOnLaw }
{}

/// A slash takes the lesser of what is due and what the account has bonded, and no more. All that
/// is due from an account for an era, over all validators and all reports, is at most the stake
/// with which it voted in the election of that era.
pub fn slashes_are_within_the_stake()
    ensures each { SlashLaw }
    ensures taken { TakenLaw }
    ensures due { DueWithinStakeLaw }
{
    a_packed_yes_is_a_plain_yes();
    a_plain_yes_is_passing();
    every_fill_passes();
}

/// The same from any sound chain on, of the eras that begin behind it. Each has one election at most:
/// that of the committee which waits in the chain, or one that is seated since. All that is due from
/// an account for such an era is at most the stake with which it voted in that election.
pub fn dues_go_on()
    ensures once { OnceOnLaw }
    ensures due { DuesOnLaw }
{
    a_packed_yes_is_a_plain_yes();
    a_plain_yes_is_passing();
    every_fill_passes();
}

/// Where slashes wait, a report queues what is due then and takes nothing; a slash that is
/// cancelled takes nothing, and the fraction stays. Where an era begins, the slashes that are due
/// in it are applied by rising number, each taking the lesser of what is due by it and what is
/// bonded then. Of what is due from an account for an era no more is taken, at once and by slashes
/// that waited.
pub fn slashes_that_wait_take_what_is_due()
    ensures each { QueuedLaw }
    ensures applied { AppliedLaw }
    ensures together { TakenInAllLaw }
{}

/// Chains that differ at most in whether a void round stands, and in how the edges of the committee
/// that waits are put down, take a block and all blocks alike: they tell the same lines, seat the
/// same committees, and are alike again.
pub fn chains_that_are_alike_go_on_alike()
    ensures step { AlikeStepLaw }
    ensures blocks { AlikeLaw }
{}

/// Nothing of a later block depends on what a kept state leaves out: chains that keep the same state
/// take a block alike, and keep the same state again. What the state leaves out of either follows
/// from it after all blocks that the one can take.
pub fn equal_states_go_on_alike()
    ensures step { SameKeptLaw }
    ensures blocks { ToldLaw }
{}

/// What is told of a genesis and its blocks is what is told of the first of them, and then what any
/// chain tells of the others that keeps the state which the first blocks left.
pub fn a_kept_state_goes_on()
    ensures { ResumeLaw }
{}

/// The chain of a state in form keeps that very state, and all else of it follows from the state.
pub fn a_state_is_led_back_to_its_chain()
    ensures { RestoreLaw }
{}

/// After any blocks from a genesis without a fault the state is in form, and its chain goes on.
pub fn every_checkpoint_goes_on()
    ensures { CheckpointLaw }
{}

/// A block keeps each part of a sound chain sound: the books, the roles with the bags, the eras, the
/// round, the submissions, the committee that waits, and the slashes.
pub fn sound_parts_stay_sound()
    ensures books { BooksStaySound }
    ensures roles { RolesStaySound }
    ensures eras { ErasStaySound }
    ensures round { RoundStaysSound }
    ensures submissions { SubmissionsStaySound }
    ensures waiting { WaitingStaysSound }
    ensures slashes { SlashesStaySound }
{
    a_packed_yes_is_a_plain_yes();
    a_plain_yes_is_passing();
    every_fill_passes();
}

/// So a chain that starts from a genesis is sound, and stays so after any blocks.
pub fn sound_chains_stay_sound()
    ensures start { StartsSound }
    ensures step { KeepsSoundLaw }
    ensures blocks { StaysSoundLaw }
{
    sound_parts_stay_sound();
}

/// No cause stands against the state that a sound chain keeps.
pub fn no_cause_stands_against_a_sound_chain()
    ensures { NoCauseLaw }
{}

/// Between two blocks a chain is sound, and the state that it keeps tells all of it and fits its
/// layout: from the genesis on, and after each block.
pub fn chains_can_be_saved()
    ensures start { SavableStartLaw }
    ensures step { SavableStepLaw }
{
    sound_chains_stay_sound();
}

/// The state of a chain that can be saved has no fault.
pub fn a_saved_state_has_no_fault()
    ensures { SavedStateLaw }
{}

/// Where a state has no fault, a chain goes on from it that can be saved, and keeps this very
/// state.
pub fn a_state_without_a_fault_is_kept()
    ensures { RestoredStateLaw }
{}

/// The books count what was told. What they call genesis is the sum of the endowments, and what they
/// call minted and burned are the sums of the lines that were told, after every list of blocks: so all
/// that the accounts hold, with what was burned, is what was endowed and minted.
pub fn the_books_count_what_was_told()
    ensures genesis { SumsLaw }
    ensures further { SumsOnLaw }
{}

/// Each call is answered at its place: it is accepted, and more may be told; or it is refused for the
/// reason of one of the numbers from 1 to 32, that alone is told, and nothing has changed.
pub fn every_call_is_answered()
    ensures { AnswersLaw }
{}

/// Whatever blocks follow a genesis without a fault, the promise holds behind every one of them: the
/// committees are sound and seated in time, nothing valid is crowded out for free, the books count
/// what was endowed and told, deposits are settled once, eras and slashes stay within their bounds,
/// and each call is answered.
pub fn every_history_keeps_its_promise()
    ensures { PromiseLaw }
{
    every_history_starts_ready();
    every_seated_committee_is_sound();
    every_round_ends_as_it_began();
    nothing_valid_is_crowded_out_for_free();
    the_books_count_what_was_told();
    deposits_are_settled();
    payouts_are_within_the_reward();
    slashes_are_within_the_stake();
    each_round_is_decided_once();
    slashes_that_wait_take_what_is_due();
    every_call_is_answered();
}
