//! The books, the roles, the bags and the submissions of a state, made anew.
ghost use Rattle.std.specs.Prelude.{◌≡◌, ◌<◌, ◌≤◌, [], ◌∷◌, ◌++◌, length, map, slice_get, false, None, OnOk, IfOk};
ghost use Rattle.npos_base.specs.declared.limits.TheConstants.{MOST_THRESHOLDS};
ghost use Rattle.stake_ledger.specs.BookRows.{rows_fault, ledger_of};
ghost use Rattle.voter_lists.specs.Bags.{IsRisingFrom, bag_of};
ghost use Rattle.submission_queue.specs.Rank.{IsRanked};
ghost use Rattle.chain_params.specs.Rules.{thresholds_in, places_of, deposit_of};
ghost use Rattle.chain_params.specs.Faults.{AreSound};
ghost use Rattle.state_rules.specs.Roles.{is_scoreless};
ghost use Rattle.npos_runtime.specs.Kept.Chain.{with_role, roles_in, bag_entry, submission_in};
ghost use Rattle.npos_runtime.specs.Kept.Remade.{CanStand, AreSoundRoles, AreRolesBetween, AreSoundItems};

use block_wire::Params;
use chain_params::{copy_thresholds, deposit_of, places_of};
use npos_base::{List, NoMemory};
use stake_ledger::{Book, BookRow, RowsFault};
use state_rules::{QueueRow, RoleKind, RoleRow};
use std::alloc::Global;
use submission_queue::{Queue, Submission};
use voter_lists::{Bags, Role, Roles};

/// The books with these rows and sums.
fn book_of(
    alloc: Global,
    rows: List<BookRow>,
    genesis: u64,
    minted: u64,
    burned: u64,
) -> Result<Book, NoMemory>
    requires { rows_fault rows genesis minted burned ≡ None }
    ensures { IfOk result (λ book. book ≡ ledger_of rows genesis minted burned) }
{
    match Book::from_rows(alloc, rows, genesis, minted, burned) {
        Ok(book) => Ok(book),
        Err(RowsFault::NoMemory) => Err(NoMemory),
        Err(_) => unreachable!(),
    }
}

/// An account takes its role.
fn take_role(alloc: Global, roles: &mut Roles, row: RoleRow) -> Result<(), NoMemory>
    requires { CanStand roles.old row.who row.role }
    ensures { OnOk result (roles.new ≡ with_role roles.old row) }
{
    let RoleRow { who, bag: _, role } = row;
    match role {
        RoleKind::Nominator { targets } => roles.put_role(who, Role::Nominator, targets),
        RoleKind::Validator { commission } => {
            roles.put_role(who, Role::Validator { commission }, List::new(alloc))
        }
    }
}

/// The roles of these accounts.
fn roles_of(alloc: Global, rows: List<RoleRow>) -> Result<Roles, NoMemory>
    requires { AreSoundRoles rows }
    ensures { IfOk result (λ roles. roles ≡ roles_in rows) }
{
    let mut roles = Roles::new(alloc);
    roles.reserve(rows.len())?;
    for row in rows.into_vec() {
        take_role(alloc, &mut roles, row)?;
    }
    Ok(roles)
}

/// The threshold at this place, where there is one.
fn threshold_at(thresholds: &[u64], place: usize) -> Option<u64>
    ensures { result ≡ slice_get thresholds.now place }
{
    if place < thresholds.len() {
        Some(thresholds[place])
    } else {
        None
    }
}

/// A score whose bag is this one: the threshold above it, or the greatest number in the last bag.
fn score_in(thresholds: &[u64], bag: u32) -> u64
    requires rising { IsRisingFrom 0 thresholds.now }
    requires there { bag ≤ length thresholds.now }
    requires scores { is_scoreless thresholds.now bag ≡ false }
    ensures { bag_of thresholds.now result ≡ bag }
{
    // What is read of them is in range: no threshold is above the greatest number.
    let _last = thresholds.last();
    match threshold_at(thresholds, bag as usize) {
        Some(threshold) => threshold,
        None => u64::MAX,
    }
}

/// The accounts join their bags in the order of the walk.
fn join_all(bags: &mut Bags, thresholds: &[u64], rows: &[RoleRow]) -> Result<(), NoMemory>
    requires rising { IsRisingFrom 0 thresholds.now }
    requires empty { bags.old ≡ record { thresholds = thresholds.now; order = [] } }
    requires sound { AreRolesBetween thresholds.now rows.now }
    ensures { OnOk result
        (bags.new ≡ record { thresholds = thresholds.now; order = map bag_entry rows.now }) }
{
    for row in rows {
        bags.insert(row.who, score_in(thresholds, row.bag))?;
    }
    Ok(())
}

/// The bags of these accounts.
fn bags_of(alloc: Global, params: &Option<Params>, rows: &[RoleRow]) -> Result<Bags, NoMemory>
    requires sound { AreSound params.now }
    requires few { length (thresholds_in params.now) ≤ MOST_THRESHOLDS }
    requires roles { AreRolesBetween (thresholds_in params.now) rows.now }
    ensures { IfOk result (λ bags. bags
        ≡ record { thresholds = thresholds_in params.now; order = map bag_entry rows.now }) }
{
    let thresholds = copy_thresholds(alloc, params)?;
    let mut bags = Bags::new(alloc, thresholds)?;
    bags.reserve(rows.len())?;
    let between = copy_thresholds(alloc, params)?;
    join_all(&mut bags, between.as_slice(), rows)?;
    Ok(bags)
}

/// A submission with the deposit that the params ask for.
fn submission_of(deposit: u64, row: QueueRow) -> Submission
    ensures { result ≡ record {
      number = row.number;
      who = row.who;
      deposit = deposit;
      score = row.score;
      bytes = row.bytes;
    } }
{
    Submission {
        number: row.number,
        who: row.who,
        deposit,
        score: row.score,
        bytes: row.bytes,
    }
}

/// A submission waits behind the others.
fn put_behind(queue: &mut Queue, item: Submission)
    requires room { length queue.old.items < queue.old.places }
    requires ranked { IsRanked (queue.old.items ++ item ∷ []) }
    ensures { queue.new ≡ record queue.old { items = queue.old.items ++ item ∷ [] } }
{
    let _ = queue.offer(item);
}

/// The queue of these submissions.
pub fn queue_of(
    alloc: Global,
    params: &Option<Params>,
    rows: List<QueueRow>,
) -> Result<Queue, NoMemory>
    requires sound { AreSound params.now }
    requires items { AreSoundItems (places_of params.now) rows }
    ensures { IfOk result (λ queue. queue
        ≡ record { items = map (submission_in params.now) rows; places = places_of params.now }) }
{
    let deposit = deposit_of(params);
    let mut queue = Queue::new(alloc, places_of(params))?;
    for row in rows.into_vec() {
        put_behind(&mut queue, submission_of(deposit, row));
    }
    Ok(queue)
}

/// The books, the roles and the bags.
pub fn accounts_of(
    alloc: Global,
    params: &Option<Params>,
    sums: (u64, u64, u64),
    rows: List<BookRow>,
    roles: List<RoleRow>,
) -> Result<(Book, Roles, Bags), NoMemory>
    requires sound { AreSound params.now }
    requires few { length (thresholds_in params.now) ≤ MOST_THRESHOLDS }
    requires rows { rows_fault rows sums.0 sums.1 sums.2 ≡ None }
    requires roles { AreRolesBetween (thresholds_in params.now) roles }
    ensures book { IfOk result (λ all. all.0 ≡ ledger_of rows sums.0 sums.1 sums.2) }
    ensures roles { IfOk result (λ all. all.1 ≡ roles_in roles) }
    ensures bags { IfOk result (λ all. all.2
        ≡ record { thresholds = thresholds_in params.now; order = map bag_entry roles }) }
{
    let (genesis, minted, burned) = sums;
    let book = book_of(alloc, rows, genesis, minted, burned)?;
    let bags = bags_of(alloc, params, roles.as_slice())?;
    let roles = roles_of(alloc, roles)?;
    Ok((book, roles, bags))
}
