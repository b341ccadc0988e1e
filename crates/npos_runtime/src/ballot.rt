//! The snapshot of a round, made from roles, bags and books.
ghost use Rattle.std.specs.Prelude.{◌≡◌, ◌<◌, List, [], ◌∷◌, length, OnOk, IfOk};
ghost use Rattle.npos_base.specs.declared.account.AccountId.{AccountId};
ghost use Rattle.npos_base.specs.declared.limits.TheConstants.{MOST_VOTERS};
ghost use Rattle.voter_lists.specs.Roles.{role_of, validators_of};
ghost use Rattle.voter_lists.specs.Ranked.{AreRanked};
ghost use Rattle.npos_runtime.specs.Rules.Ballots.{ballot_of, commission_in, commissions_of, is_eligible, snapshot_of};
ghost use Rattle.npos_runtime.specs.Rules.Rounds.{round_line, round_now};
ghost use Rattle.npos_runtime.specs.Rules.Polling.{IsPolled, polled};
ghost use Rattle.npos_runtime.specs.Live.{IsLive};

use crate::{Chain, Round};
use block_receipts::Line;
use chain_params::seats_of;
use election_snapshot::{SnapshotFault, SnapshotParts};
use npos_base::{AccountId, List, MOST_VOTERS, NoMemory};
use std::alloc::Global;
use voter_lists::{Electorate, Role, Roles};

/// Adds all validators by rising account.
#[tactic(auto, using(crate::proofs::Rules::BallotLemmas::target_free, crate::proofs::Rules::BallotLemmas::target_next))]
fn add_targets(parts: &mut SnapshotParts, roles: &Roles) -> Result<(), NoMemory>
    requires empty { parts.old ≡ record { targets = []; voters = [] } }
    requires ranked { AreRanked roles.now (validators_of roles.now) }
    ensures { OnOk result (parts.new ≡ record { targets = validators_of roles.now; voters = [] }) }
{
    for i in 0..roles.validator_count() {
        parts.put_target(roles.validator_at(i))?;
    }
    Ok(())
}

/// Adds the voter of an account if it is eligible, and tells whether it is. Its row may be the one
/// at the guess, which moves on.
fn add_voter(
    parts: &mut SnapshotParts,
    chain: &Chain,
    electorate: &mut Electorate<'_>,
    guess: &mut usize,
    who: AccountId,
    votes: &mut Vec<u16>,
) -> Result<bool, NoMemory>
    requires live { IsLive chain.now }
    requires roles { electorate.old ≡ chain.now.roles }
    requires room { length parts.old.voters < MOST_VOTERS }
    requires polled { (more : List AccountId) × IsPolled chain.now parts.old (who ∷ more) }
    ensures answer { IfOk result (λ added. added ≡ is_eligible chain.now who) }
    ensures ok { OnOk result (parts.new ≡ polled chain.now parts.old who) }
    ensures kept { electorate.new ≡ electorate.old }
{
    let stake = chain.book.active_from(guess, who);
    electorate.cast(who, votes)?;
    if stake == 0 || votes.is_empty() {
        return Ok(false);
    }
    parts.put_voter(who, stake, votes.as_slice())?;
    Ok(true)
}

/// Adds the first eligible accounts of the walk over the bags.
fn add_voters(alloc: Global, parts: &mut SnapshotParts, chain: &Chain) -> Result<(), NoMemory>
    requires live { IsLive chain.now }
    requires empty { parts.old ≡ record { targets = validators_of chain.now.roles; voters = [] } }
    ensures { OnOk result (parts.new ≡ ballot_of chain.now) }
{
    let mut electorate = chain.roles.electorate(alloc)?;
    parts.reserve(electorate.most_voters().min(MOST_VOTERS))?;
    let mut guess = 0;
    let mut votes = Vec::new(alloc);
    let mut voters = 0;
    let mut walk = chain.bags.walk();
    while voters < MOST_VOTERS {
        let Some(who) = walk.next() else {
            break;
        };
        if add_voter(parts, chain, &mut electorate, &mut guess, who, &mut votes)? {
            voters += 1;
        }
    }
    Ok(())
}

/// The targets and voters as they are now.
fn draft(alloc: Global, chain: &Chain) -> Result<SnapshotParts, NoMemory>
    requires { IsLive chain.now }
    ensures { IfOk result (λ draft. draft ≡ ballot_of chain.now) }
{
    let mut parts = SnapshotParts::new(alloc);
    add_targets(&mut parts, &chain.roles)?;
    add_voters(alloc, &mut parts, chain)?;
    Ok(parts)
}

/// What a validator keeps of its rewards, in billionths.
fn commission(roles: &Roles, who: AccountId) -> u32
    ensures { result ≡ commission_in (role_of roles.now who) }
{
    match roles.role(who) {
        Role::Validator { commission } => commission,
        Role::Nominator | Role::Nobody => 0,
    }
}

/// The commissions of the targets, in their order.
#[tactic(auto, using(crate::proofs::Rules::BallotLemmas::mapped_next))]
fn commissions(alloc: Global, roles: &Roles) -> Result<List<u32>, NoMemory>
    ensures { IfOk result (λ noted. noted ≡ commissions_of roles.now) }
{
    let mut noted = Vec::new(alloc);
    for i in 0..roles.validator_count() {
        noted.push(commission(roles, roles.validator_at(i)))?;
    }
    Ok(List::from_vec(noted))
}

/// Begins the round of this number with its snapshot. It is void where there are fewer targets than
/// seats, or too little stake.
#[tactic(auto, using(crate::proofs::Rules::VoidLemmas::few_void, crate::proofs::Rules::VoidLemmas::poor_void))]
pub fn take_snapshot(alloc: Global, chain: &Chain, number: u32) -> Result<(Round, Line), NoMemory>
    requires { IsLive chain.now }
    ensures { IfOk result (λ begun. (begun.0 ≡ round_now chain.now number)
        × (begun.1 ≡ round_line number (snapshot_of chain.now))) }
{
    match draft(alloc, chain)?.finish(seats_of(&chain.params)) {
        Ok(snapshot) => {
            let line = Line::Snapshot {
                round: number,
                targets: snapshot.target_count() as u32,
                voters: snapshot.voter_count() as u32,
                total: snapshot.total(),
            };
            let round = Round::Open {
                number,
                snapshot,
                commissions: commissions(alloc, &chain.roles)?,
            };
            Ok((round, line))
        }
        Err(SnapshotFault::Few { .. }) => {
            Ok((Round::Void { number }, Line::VoidFew { round: number }))
        }
        Err(SnapshotFault::Poor { .. }) => {
            Ok((Round::Void { number }, Line::VoidPoor { round: number }))
        }
        Err(_) => unreachable!(),
    }
}
