//! What follows for all words and all bytes. Each law is the clause of a function that does
//! nothing, or no more than the call that it speaks of.
ghost use Rattle.std.specs.Prelude.{◌≡◌, ℕ, List};
ghost use Rattle.npos_cli.specs.Chain.{npos_machine};
ghost use Rattle.npos_cli.specs.Checkpoints.{checkpoint_machine, resume_machine};
ghost use Rattle.npos_cli.specs.Books.{BooksBalance, DepositsAreKept};
ghost use Rattle.npos_cli.specs.Seats.{SeatsAreSound, RoundsAreSeated};
ghost use Rattle.npos_cli.specs.Crowding.{NoneIsCrowdedOut};
ghost use Rattle.npos_cli.specs.Eras.{ErasAreKept};
ghost use Rattle.npos_cli.specs.Pools.{pool_machine, PoolsAreFair};
ghost use Rattle.npos_cli.specs.Checkpoints.{WritesCheckpoints, GoesOnFromCheckpoints, StartsWithCheckpoints};
ghost use Rattle.npos_cli.specs.Resumable.{StaysWhole, GoesOnWhole, EachGoesOn, AlwaysStopsAndGoesOn};
ghost use Rattle.npos_cli.specs.Resumed.{ResumedBooksBalance, ResumedSeatsAreSound, ResumedRoundsAreSeated, ResumedNoneIsCrowdedOut, ResumedDepositsAreKept, ResumedErasAreKept};
ghost use Rattle.npos_cli.specs.Resumed.{KeepsOn};
ghost use Rattle.npos_cli.specs.Claim.{IsAlwaysChained};
ghost use Rattle.npos_cli.specs.Laws.{OwesOnce, OwesAlways, PacksBack};
ghost use Rattle.run_edges.specs.Laws.{IsReplayedOnce, IsAlwaysReplayed, IsWholeOnce, IsAlwaysWhole, BeginsWithWhole, WholeGrows, FaultsStand};

pub use election_work::laws::a_fill_is_sealed;
use npos_runtime::laws::{
    a_saved_state_has_no_fault, a_state_without_a_fault_is_kept, chains_can_be_saved,
    deposits_are_settled, deposits_go_on, dues_go_on, each_round_is_decided_once,
    equal_states_go_on_alike, every_history_keeps_its_promise, every_round_ends_as_it_began,
    every_seated_committee_is_sound, nothing_valid_is_crowded_out_for_free,
    payouts_are_within_the_reward, payouts_go_on, slashes_are_within_the_stake,
    slashes_that_wait_take_what_is_due,
};
use stake_pools::laws::{
    a_payment_is_within_its_part, every_list_of_items_leaves_a_pool_sound, every_pool_starts_sound,
    nobody_is_diluted, worths_are_within_the_active_stake,
};

/// The promise of a replay: the input began no chain; or the text is what a genesis and blocks tell
/// that stand at the front of the input, and behind each of these blocks their chain keeps all that is
/// promised: committees, seats, crowding, sums, deposits, eras, slashes that wait, and answers to
/// calls.
pub fn replays_keep_their_promise()
    ensures { IsAlwaysChained }
{
    every_history_keeps_its_promise();
}

/// Wherever a replay has come, its books balance.
pub fn replays_balance()
    ensures { (bytes : List ℕ) → BooksBalance bytes }
{}

/// Every committee that a replay seats, from a signed solution or from the fill, has a member for
/// each seat, follows nominations, spends no voter beyond its stake, denies nobody, and so is
/// proportional.
#[tactic(auto, using(crate::proofs::SeatLaws::seats_sound))]
pub fn replays_seat_sound_committees()
    ensures { (bytes : List ℕ) → SeatsAreSound bytes }
{
    every_seated_committee_is_sound();
}

/// Where a block of a replay takes the snapshot of a round, the block of its decision seats exactly
/// one committee, elected from that very snapshot; or its line told that there were too few targets
/// or too little stake, and nobody is seated.
pub fn replays_seat_each_round()
    ensures { (bytes : List ℕ) → RoundsAreSeated bytes }
{
    every_round_ends_as_it_began();
}

/// Wherever a replay has come, what is held of an account is the deposits of its submissions that
/// wait. Accepted submissions have the numbers from 1 on without gaps; each waits or was settled
/// once, and by the time its round is decided it is settled for good.
pub fn replays_settle_deposits()
    ensures { (bytes : List ℕ) → DepositsAreKept bytes }
{
    deposits_are_settled();
}

/// Nothing valid is crowded out for free of a round that a replay decides: it is passed over only
/// for a claim that is no less, or at the cost of as many deposits as the queue has places.
pub fn replays_crowd_nothing_out()
    ensures { (bytes : List ℕ) → NoneIsCrowdedOut bytes }
{
    nothing_valid_is_crowded_out_for_free();
}

/// Whatever blocks a replay takes, what they pay of an era is at most its reward, and what they
/// make due from an account for an era is at most the stake with which it voted in the one election
/// of that era. Each payout is minted as it is told, and a slash takes the lesser of what is due
/// and what is bonded.
pub fn replays_keep_the_bounds_of_eras()
    ensures { (bytes : List ℕ) → ErasAreKept bytes }
{
    each_round_is_decided_once();
    payouts_are_within_the_reward();
    slashes_are_within_the_stake();
    slashes_that_wait_take_what_is_due();
}

/// Wherever the input of a pool has come, its books balance, credits are within its pot, active stake
/// is at most the points, and nobody is diluted by another, but by a slash.
pub fn pools_are_fair()
    ensures { (bytes : List ℕ) → PoolsAreFair bytes }
{
    every_pool_starts_sound();
    every_list_of_items_leaves_a_pool_sound();
    worths_are_within_the_active_stake();
    nobody_is_diluted();
    a_payment_is_within_its_part();
}

/// All words owe something for all bytes, and nothing else: a text and a status.
pub fn one_answer()
    ensures one { OwesOnce }
    ensures any { OwesAlways }
{}

/// Packing what was shown gives back the bytes that were shown, where the text has at most as many
/// bytes as a bundle may have.
pub fn what_is_shown_packs_back()
    ensures { PacksBack }
{}

/// No bytes have two replays: text, end and last state are determined by them.
pub fn one_replay()
    ensures chain { IsReplayedOnce npos_machine }
    ensures checkpoint { IsReplayedOnce checkpoint_machine }
    ensures resumed { IsReplayedOnce resume_machine }
    ensures pool { IsReplayedOnce pool_machine }
{}

/// All bytes have a replay.
pub fn every_input_has_a_replay()
    ensures chain { IsAlwaysReplayed npos_machine }
    ensures checkpoint { IsAlwaysReplayed checkpoint_machine }
    ensures resumed { IsAlwaysReplayed resume_machine }
    ensures pool { IsAlwaysReplayed pool_machine }
{}

/// The whole blocks of an input write exactly one text, and its replay begins with it.
pub fn whole_blocks_have_one_text()
    ensures one { IsWholeOnce npos_machine }
    ensures any { IsAlwaysWhole npos_machine }
    ensures front { BeginsWithWhole npos_machine }
{}

/// Where an input goes on, the text of its whole blocks goes on too: nothing that they wrote is
/// taken back.
pub fn whole_text_grows()
    ensures { WholeGrows npos_machine }
{}

/// A fault line stands whatever follows the input, unless the input ends where bytes are missing.
pub fn faults_stand()
    ensures { FaultsStand npos_machine }
{}

/// A stream may be cut behind any of its blocks: the checkpoint of the blocks before the cut is the
/// state that the chain keeps there, and nothing else is told.
pub fn replays_write_checkpoints()
    ensures { (bytes : List ℕ) → WritesCheckpoints bytes }
{}

/// What a whole replay writes and seats behind a block is what is written and seated by whoever
/// goes on from the checkpoint of the blocks up to there, with the bytes that follow.
pub fn replays_go_on_from_checkpoints()
    ensures { (bytes : List ℕ) → GoesOnFromCheckpoints bytes }
{
    chains_can_be_saved();
    a_saved_state_has_no_fault();
    a_state_without_a_fault_is_kept();
    equal_states_go_on_alike();
}

/// To stop and go on, as one statement: cut a whole stream behind any block, give `checkpoint` its
/// front and a None, and give `resume` what that wrote and the bytes behind the block. Both are done,
/// and what `resume` writes is what a replay of the whole writes behind the front.
pub fn what_stops_goes_on()
    ensures { AlwaysStopsAndGoesOn }
{
    replays_write_checkpoints();
    replays_go_on_from_checkpoints();
}

/// A checkpoint that is gone on from is the very one that the chain which goes on would write, so no
/// two checkpoints start the same chain.
pub fn replays_start_with_their_checkpoint()
    ensures { (bytes : List ℕ) → StartsWithCheckpoints bytes }
{
    a_state_without_a_fault_is_kept();
}

/// What is a whole stream for a replay is one for who writes its last state. The checkpoint of a
/// place in it, and the bytes behind, are a whole stream for who goes on; so are the checkpoint of
/// any chain that can be saved, and blocks that are due.
pub fn whole_streams_stop_and_go_on()
    ensures stop { (bytes : List ℕ) → StaysWhole bytes }
    ensures go_on { (bytes : List ℕ) → GoesOnWhole bytes }
    ensures each { EachGoesOn }
{
    chains_can_be_saved();
    a_saved_state_has_no_fault();
    a_state_without_a_fault_is_kept();
    equal_states_go_on_alike();
}

/// Wherever a replay that goes on has come, its books balance.
pub fn resumed_replays_balance()
    ensures { (bytes : List ℕ) → ResumedBooksBalance bytes }
{
    a_state_without_a_fault_is_kept();
}

/// Every committee that a replay seats which goes on is sound, also one of a round that was open when
/// the checkpoint was written.
pub fn resumed_replays_seat_sound_committees()
    ensures { (bytes : List ℕ) → ResumedSeatsAreSound bytes }
{
    a_state_without_a_fault_is_kept();
    every_seated_committee_is_sound();
}

/// Where a block of a replay that goes on takes the snapshot of a round, the block of its decision
/// seats exactly one committee, elected from that very snapshot; or its line told why there is none.
pub fn resumed_replays_seat_each_round()
    ensures { (bytes : List ℕ) → ResumedRoundsAreSeated bytes }
{
    a_state_without_a_fault_is_kept();
    every_round_ends_as_it_began();
}

/// Nothing valid that is offered to a round since the checkpoint is crowded out of it for free.
pub fn resumed_replays_crowd_nothing_out()
    ensures { (bytes : List ℕ) → ResumedNoneIsCrowdedOut bytes }
{
    a_state_without_a_fault_is_kept();
    nothing_valid_is_crowded_out_for_free();
}

/// What is held of an account is the deposits of its submissions that wait. Each that waited when the
/// checkpoint was written, or was accepted since then, waits or was settled once, and by the time
/// its round is decided it is settled.
pub fn resumed_replays_settle_deposits()
    ensures { (bytes : List ℕ) → ResumedDepositsAreKept bytes }
{
    a_state_without_a_fault_is_kept();
    deposits_go_on();
}

/// Whatever blocks follow a checkpoint, what they pay of an era is at most its reward, and each payout
/// is minted as it is told. What they make due from an account for an era that begins behind the
/// checkpoint is at most the stake with which it voted in the one election of that era. A slash takes
/// the lesser of what is due and what is bonded, at once or when it was waited for, unless it is
/// cancelled; and no more is taken for an era than waited for it in the checkpoint and was made due
/// for it since then.
pub fn resumed_replays_keep_the_bounds_of_slashes()
    ensures { (bytes : List ℕ) → ResumedErasAreKept bytes }
{
    a_state_without_a_fault_is_kept();
    payouts_go_on();
    dues_go_on();
    slashes_are_within_the_stake();
    slashes_that_wait_take_what_is_due();
}

/// All that is promised of a replay that goes on from a checkpoint.
pub fn resumed_replays_keep_their_promise()
    ensures { (bytes : List ℕ) → KeepsOn bytes }
{
    resumed_replays_balance();
    resumed_replays_seat_sound_committees();
    resumed_replays_seat_each_round();
    resumed_replays_crowd_nothing_out();
    resumed_replays_settle_deposits();
    resumed_replays_keep_the_bounds_of_slashes();
}
