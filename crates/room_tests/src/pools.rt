//! The worked pools, one item for each refusal, and the largest amounts. Expected lines are the
//! rule's, by hand.

use npos_base::{AccountId, List, NoMemory};
use stake_pools::{Pool, PoolFault, PoolGenesis, PoolKind, PoolLine};
use std::alloc::Global;
use std::fmt::Write;
use std::test::Fail;

/// What is asked, as a row of a table has it.
#[derive(Clone, Copy)]
enum Ask {
    Join(u64),
    Leave(u64),
    Redeem,
    Reward(u64),
    Claim,
    Slash(u64),
    NextEra,
}

use Ask::*;

/// An account by its number, and what it asks.
type Row = (u128, Ask);

const POOL: u128 = 9;

static WORKED: [Row; 10] = [
    (1, Join(60)),
    (2, Join(40)),
    (1, Reward(10)),
    (POOL, Slash(50)),
    (2, Join(10)),
    (1, Leave(60)),
    (1, Redeem),
    (POOL, NextEra),
    (1, Redeem),
    (1, Claim),
];

const WORKED_TOLD: &str = "ok, ok, ok, ok slashed 9 50, ok, ok, 36, ok, ok paid 1 30, ok paid 1 6, \
    points 60 active 30 pot 4 credits 4, free 120 burned 50 issuance 150";

static SMALL_REWARD: [Row; 3] = [(1, Join(60)), (2, Join(40)), (1, Reward(1))];

const SMALL_TOLD: &str =
    "ok, ok, ok, points 100 active 100 pot 1 credits 0, free 100 burned 0 issuance 200";

/// Each refusal but the two that take long to reach, in the order in which each kind tries them.
static REFUSED: [Row; 27] = [
    (1, Join(0)),
    (POOL, Join(1)),
    (1, Join(101)),
    (1, Reward(5)),
    (1, Leave(0)),
    (1, Leave(1)),
    (1, Redeem),
    (1, Claim),
    (1, Slash(1)),
    (1, NextEra),
    (POOL, Redeem),
    (POOL, Claim),
    (POOL, Leave(1)),
    (1, Join(60)),
    (1, Leave(61)),
    (1, Redeem),
    (1, Claim),
    (1, Reward(0)),
    (POOL, Reward(1)),
    (1, Reward(41)),
    (POOL, Slash(100)),
    (2, Join(10)),
    (1, Leave(60)),
    (2, Reward(1)),
    (POOL, NextEra),
    (1, Redeem),
    (2, Join(10)),
];

const REFUSED_TOLD: &str =
    "7, 8, 1, 41, 7, 33, 33, 33, 27, 27, 33, 33, 33, ok, 35, 36, 42, 7, 8, 1, \
    ok slashed 9 60, 39, ok, 41, ok, ok paid 1 0, ok, \
    points 10 active 10 pot 0 credits 0, free 130 burned 60 issuance 140";

/// The most units that there may be.
const MOST: u64 = 9_223_372_036_854_775_807;

/// All units join, all but one are burned, and the price of a point is then too low: products pass
/// 64 bits, and so would the points.
static LARGE: [Row; 9] = [
    (1, Join(MOST - 300)),
    (POOL, Slash(MOST - 301)),
    (2, Join(1)),
    (2, Join(1)),
    (1, Leave(MOST - 300)),
    (POOL, NextEra),
    (1, Redeem),
    (1, Join(1)),
    (2, Reward(299)),
];

const LARGE_TOLD: &str = "ok, ok slashed 9 9223372036854775506, ok, 40, ok, ok, ok paid 1 1, \
    ok, ok, points 18446744073709551014 active 2 pot 299 credits 298, \
    free 299 burned 9223372036854775506 issuance 301";

fn account(number: u128) -> AccountId {
    AccountId { hi: 0, lo: number }
}

fn kind_of(ask: Ask) -> PoolKind {
    match ask {
        Join(value) => PoolKind::Join { value },
        Leave(points) => PoolKind::Leave { points },
        Redeem => PoolKind::Redeem,
        Reward(value) => PoolKind::Reward { value },
        Claim => PoolKind::Claim,
        Slash(amount) => PoolKind::Slash { amount },
        NextEra => PoolKind::NextEra,
    }
}

/// The pool of these endowments, where there are no more than may be.
fn pool_of(
    alloc: Global,
    endowments: &[(u128, u64)],
    bonding_eras: u32,
) -> Result<Pool, PoolFault> {
    let mut list = List::new(alloc);
    for &(number, value) in endowments {
        if list.push((account(number), value)).is_err() {
            return Err(PoolFault::NoMemory);
        }
    }
    if list.len() > 65_536 {
        return Err(PoolFault::NoMemory);
    }
    Pool::start(
        alloc,
        PoolGenesis {
            endowments: list,
            pool: account(POOL),
            bonding_eras,
        },
    )
}

/// Writes what one item told.
fn tell(text: &mut String, lines: &[PoolLine]) -> Result<(), Fail> {
    for (place, line) in lines.iter().enumerate() {
        if place > 0 {
            write!(text, " ")?;
        }
        match line {
            PoolLine::Accepted => write!(text, "ok")?,
            PoolLine::Refused(number) => write!(text, "{}", *number)?,
            PoolLine::Paid { who, amount } => write!(text, "paid {} {}", who.lo, *amount)?,
            PoolLine::Slashed { who, amount } => write!(text, "slashed {} {}", who.lo, *amount)?,
        }
    }
    write!(text, ", ")?;
    Ok(())
}

/// Writes the sums of a pool.
fn tell_sums(text: &mut String, pool: &Pool) -> Result<(), Fail> {
    let (book, who) = (pool.book(), account(POOL));
    let totals = book.totals();
    write!(
        text,
        "points {} active {} pot {} credits {}, ",
        pool.points(),
        book.active(who),
        book.free(who),
        pool.credits()
    )?;
    write!(
        text,
        "free {} burned {} issuance {}",
        totals.free, totals.burned, totals.issuance
    )?;
    Ok(())
}

/// What the items tell, and the sums behind them.
fn told(alloc: Global, endowments: &[(u128, u64)], rows: &[Row]) -> Result<String, Fail> {
    let mut text = String::new(alloc);
    let mut pool = pool_of(alloc, endowments, 1)?;
    for &(number, ask) in rows {
        let receipt = pool.apply(account(number), kind_of(ask))?;
        tell(&mut text, receipt.lines.as_slice())?;
    }
    tell_sums(&mut text, &pool)?;
    Ok(text)
}

#[test]
fn worked_pools_tell_what_is_due(rt: HostRuntime) -> Result<(), Fail> {
    let alloc = rt.alloc();
    let both = [(1, 100), (2, 100)];
    assert_eq!(rt; told(alloc, &both, &WORKED)?.as_str(), WORKED_TOLD);
    assert_eq!(rt; told(alloc, &both, &SMALL_REWARD)?.as_str(), SMALL_TOLD);
    assert_eq!(rt;
        told(alloc, &[(1, 100), (2, 100)], &REFUSED)?.as_str(),
        REFUSED_TOLD
    );
    assert_eq!(rt;
        told(alloc, &[(1, MOST - 300), (2, 300)], &LARGE)?.as_str(),
        LARGE_TOLD
    );
    Ok(())
}

/// Leaves of one point each, an era apart, more than may stand.
#[test]
fn a_member_has_32_leaves(rt: HostRuntime) -> Result<(), Fail> {
    let mut pool = pool_of(rt.alloc(), &[(1, 100)], 84)?;
    let told = pool.take(account(1), PoolKind::Join { value: 100 })?;
    assert_eq!(rt; (told.first, told.more), (PoolLine::Accepted, None));
    for _ in 0..32 {
        let receipt = pool.apply(account(1), PoolKind::Leave { points: 1 })?;
        assert_eq!(rt; receipt.lines.as_slice(), [PoolLine::Accepted].as_slice());
        let _ = pool.apply(account(POOL), PoolKind::NextEra)?;
    }
    let receipt = pool.apply(account(1), PoolKind::Leave { points: 1 })?;
    assert_eq!(rt;
        receipt.lines.as_slice(),
        [PoolLine::Refused(38)].as_slice()
    );
    assert_eq!(rt; pool.era(), 32);
    Ok(())
}

/// As many members as may be, each with one unit, and one more.
#[test]
fn a_pool_has_4096_members(rt: HostRuntime) -> Result<(), Fail> {
    let alloc = rt.alloc();
    let mut endowments: Vec<(u128, u64)> = Vec::new(alloc);
    for number in 10..4107_u32 {
        endowments
            .push((u128::from(number), 3))
            .map_err(|_| NoMemory)?;
    }
    let mut pool = pool_of(alloc, &endowments, 1)?;
    for number in 10..4106_u32 {
        let receipt = pool.apply(account(u128::from(number)), PoolKind::Join { value: 1 })?;
        assert_eq!(rt; receipt.lines.as_slice(), [PoolLine::Accepted].as_slice());
    }
    let last = pool.apply(account(4106), PoolKind::Join { value: 1 })?;
    assert_eq!(rt; last.lines.as_slice(), [PoolLine::Refused(37)].as_slice());
    let again = pool.apply(account(10), PoolKind::Join { value: 1 })?;
    assert_eq!(rt; again.lines.as_slice(), [PoolLine::Accepted].as_slice());
    let _ = pool.apply(account(4106), PoolKind::Reward { value: 3 })?;
    assert_eq!(rt; (pool.points(), pool.credits()), (4097, 0));
    assert_eq!(rt; pool.book().free(account(POOL)), 3);
    Ok(())
}

/// The fault of these endowments and this bonding.
fn fault(alloc: Global, endowments: &[(u128, u64)], bonding_eras: u32) -> Option<PoolFault> {
    pool_of(alloc, endowments, bonding_eras).err()
}

/// Endowments, how many eras a bond stays, and the fault.
static FAULTS: [(&[(u128, u64)], u32, Option<PoolFault>); 6] = [
    (&[(1, 5), (1, MOST)], 0, Some(PoolFault::RepeatedAccount(1))),
    (&[(1, 5), (POOL, MOST)], 0, Some(PoolFault::TooMuch(1))),
    (
        &[(1, 5), (POOL, 5), (1, 5)],
        0,
        Some(PoolFault::PoolEndowed(1)),
    ),
    (&[(1, 5)], 0, Some(PoolFault::BadBonding(0))),
    (&[(1, 5)], 85, Some(PoolFault::BadBonding(85))),
    (&[(1, 5)], 84, None),
];

#[test]
fn the_first_fault_is_found(rt: HostRuntime) -> Result<(), Fail> {
    for (endowments, bonding_eras, due) in &FAULTS {
        assert_eq!(rt; fault(rt.alloc(), endowments, *bonding_eras), *due);
    }
    Ok(())
}
