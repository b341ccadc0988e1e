//! Accounts that few slots crowd, and accounts that many do.

use account_places::Places;
use npos_base::{AccountId, NoMemory};
use std::alloc::Global;
use std::test::Fail;

/// An account whose first half is n, and whose last one is n times as far, modulo 2^64. Where that is
/// 2^64 - 1, the halves add up to the same for each n, and all begin at one slot.
fn nth(n: u32, apart: u128) -> AccountId {
    AccountId {
        hi: u128::from(n),
        lo: u128::from(n).wrapping_mul(apart) & 0xffff_ffff_ffff_ffff,
    }
}

/// So many accounts, whose last halves are so far apart.
fn crowd(alloc: Global, count: u32, apart: u128) -> Result<Places, NoMemory> {
    let mut places = Places::new(alloc);
    for n in 0..count {
        let who = nth(n, apart);
        if places.find(who).is_none() {
            places.put(who)?;
        }
    }
    Ok(places)
}

/// Whether the account stands at this place, whatever is guessed.
fn stands(places: &Places, place: usize, who: AccountId) -> bool {
    let found = Some(place);
    place < places.count()
        && places.account(place) == who
        && places.find(who) == found
        && places.find_from(place, who) == found
        && places.find_from(0, who) == found
}

/// Whether so many accounts stand where they came, and the next nowhere.
fn are_found(places: &Places, count: u32, apart: u128) -> bool {
    for n in 0..count {
        if !stands(places, n as usize, nth(n, apart)) {
            return false;
        }
    }
    let next = nth(count, apart);
    places.find(next).is_none() && places.find_from(0, next).is_none()
}

#[test]
fn accounts_are_found_where_they_came(rt: HostRuntime) -> Result<(), Fail> {
    for apart in [0, 1, 3 << 40, 0x9e37_79b9_7f4a_7c15, 0xffff_ffff_ffff_ffff] {
        let places = crowd(rt.alloc(), 5000, apart)?;
        assert!(rt; are_found(&places, 5000, apart));
    }
    Ok(())
}

// The first account has no mark and fills the slots where all begin, so all are in the crowd. Which
// of them have a second slot was reckoned outside: all 300.
#[test]
fn a_crowd_is_guessed(rt: HostRuntime) -> Result<(), Fail> {
    let apart = 0xffff_ffff_ffff_ffff;
    let places = crowd(rt.alloc(), 300, apart)?;
    let mut guesses = Vec::new(rt.alloc());
    let whose = [
        nth(90, apart),
        nth(0, apart),
        nth(299, apart),
        nth(5, apart),
    ];
    places.guess_each(&whose, &mut guesses)?;
    assert_eq!(rt; guesses.as_slice(), [90, 0, 299, 5].as_slice());
    assert_eq!(rt; places.guess(nth(1, apart)), 1);
    Ok(())
}

#[test]
fn accounts_are_told_in_order(rt: HostRuntime) -> Result<(), Fail> {
    for apart in [1, 0x9e37_79b9_7f4a_7c15] {
        let places = crowd(rt.alloc(), 100, apart)?;
        let order = places.by_account(rt.alloc())?;
        let count = order.len();
        assert_eq!(rt; count, 100);
        for (rank, (who, place)) in order.iter().enumerate() {
            assert!(rt; rank < count && stands(&places, *place, *who));
            assert_eq!(rt; places.in_order(rank), *who);
        }
    }
    Ok(())
}
