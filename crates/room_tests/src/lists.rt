//! The walk of five accounts over three bags, each refusal of the lists, and bags of many accounts.
ghost use Rattle.std.specs.Prelude.{◌≡◌, IfOk};

use npos_base::{AccountId, List, NoMemory};
use std::alloc::Global;
use std::test::Fail;
use voter_lists::{Bags, ListRefusal, Role, Roles, laws};

/// The account of 31 bytes 0 and this one.
const fn at(n: u8) -> AccountId {
    AccountId {
        hi: 0,
        lo: n as u128,
    }
}

fn list_of<T: Copy>(alloc: Global, items: &[T]) -> Result<List<T>, NoMemory>
    ensures { IfOk result (λ list. list ≡ items.now) }
{
    Ok(List::from_vec(Vec::from_slice(alloc, items)?))
}

/// Bags between 100 and 1000 that five accounts joined in turn.
fn five_in_bags(alloc: Global) -> Result<Bags, NoMemory> {
    let mut bags = Bags::new(alloc, list_of(alloc, &[100, 1000])?)?;
    for (n, score) in [(1, 50), (2, 100), (3, 101), (4, 2000), (5, 70)] {
        let who = at(n);
        if !bags.contains(who) {
            bags.insert(who, score)?;
        }
    }
    Ok(bags)
}

/// Whether these accounts are the walk, from one to the next and in one go.
fn walks(bags: &Bags, accounts: &[AccountId]) -> bool {
    let mut next = bags.first();
    let mut walk = bags.walk();
    for account in accounts {
        if next != Some(*account) || walk.next() != next || !bags.contains(*account) {
            return false;
        }
        next = bags.next(*account);
    }
    next.is_none() && walk.next().is_none()
}

#[test]
fn the_walk_goes_from_the_highest_bag_down(rt: HostRuntime) -> Result<(), Fail> {
    let mut bags = five_in_bags(rt.alloc())?;
    assert!(rt; walks(&bags, &[at(4), at(3), at(1), at(2), at(5)]));
    assert_eq!(rt; bags.put_in_front(at(2), 100, at(1), 50), Ok(()));
    assert!(rt; walks(&bags, &[at(4), at(3), at(2), at(1), at(5)]));
    Ok(())
}

#[test]
fn moves_are_refused(rt: HostRuntime) -> Result<(), Fail> {
    let mut bags = five_in_bags(rt.alloc())?;
    bags.put_in_front(at(2), 100, at(1), 50)?;
    let lighter = bags.put_in_front(at(5), 70, at(2), 100);
    assert!(rt; lighter == Err(ListRefusal::NotHeavier));
    let apart = bags.put_in_front(at(1), 50, at(3), 101);
    assert!(rt; apart == Err(ListRefusal::OtherBag));
    assert!(rt; bags.rebag(at(1), 50) == Err(ListRefusal::SameBag));
    assert!(rt; bags.rebag(at(6), 50) == Err(ListRefusal::NotListed));
    Ok(())
}

#[test]
fn accounts_move_and_leave(rt: HostRuntime) -> Result<(), Fail> {
    let mut bags = five_in_bags(rt.alloc())?;
    let leaver = at(2);
    let mover = at(5);
    assert_eq!(rt; bags.rebag(at(1), 1000), Ok(()));
    assert!(rt; bags.contains(leaver));
    bags.remove(leaver);
    assert!(rt; bags.contains(mover));
    assert_eq!(rt; bags.update(mover, 5000), Ok(true));
    assert!(rt; walks(&bags, &[at(4), at(5), at(3), at(1)]));
    Ok(())
}

/// The accounts of the two validators.
const ONE: AccountId = AccountId { hi: 0, lo: 1 };

const TWO: AccountId = AccountId { hi: 0, lo: 2 };

/// Accounts, the role of each and whom it names, where the first two validate and two nominate.
static TOLD: [(u8, Role, &[AccountId]); 5] = [
    (2, Role::Validator { commission: 7 }, &[]),
    (1, Role::Validator { commission: 9 }, &[]),
    (3, Role::Nominator, &[TWO, ONE]),
    (4, Role::Nominator, &[ONE]),
    (9, Role::Nobody, &[]),
];

/// Two validators.
fn two_validators(alloc: Global) -> Result<Roles, Fail> {
    let mut roles = Roles::new(alloc);
    roles.validate(TWO, 7)?;
    roles.validate(ONE, 9)?;
    Ok(roles)
}

/// Two validators, and a nominator of both and one of the last.
fn two_of_each(alloc: Global) -> Result<Roles, Fail> {
    let mut roles = two_validators(alloc)?;
    roles.nominate(at(3), list_of(alloc, &[TWO, ONE])?)?;
    roles.nominate(at(4), list_of(alloc, &[ONE])?)?;
    Ok(roles)
}

/// Whether an account has the role and names the targets of its row.
fn is_told(
    alloc: Global,
    roles: &Roles,
    guess: &mut usize,
    row: &(u8, Role, &[AccountId]),
) -> Result<bool, NoMemory> {
    let (told, named) = roles.role_from(guess, at(row.0));
    let accounts = named.to_list(alloc)?;
    Ok(told == row.1 && accounts.as_slice() == row.2 && named.is_empty() == row.2.is_empty())
}

#[test]
fn roles_come(rt: HostRuntime) -> Result<(), Fail> {
    let roles = two_validators(rt.alloc())?;
    assert!(rt; roles.validator_count() == 2 && roles.validator_at(0) == ONE);
    Ok(())
}

#[test]
fn roles_are_told(rt: HostRuntime) -> Result<(), Fail> {
    let roles = two_of_each(rt.alloc())?;
    let named = roles.targets_of(at(3)).to_list(rt.alloc())?;
    assert!(rt; named.as_slice() == [TWO, ONE].as_slice());
    let mut guess = 0;
    for row in &TOLD {
        assert!(rt; is_told(rt.alloc(), &roles, &mut guess, row)?);
    }
    assert_eq!(rt; guess, 4);
    Ok(())
}

#[test]
fn roles_go(rt: HostRuntime) -> Result<(), Fail> {
    let mut roles = two_of_each(rt.alloc())?;
    assert!(rt; roles.role(TWO) == Role::Validator { commission: 7 });
    assert!(rt; roles.chill(TWO) == Ok(()));
    assert!(rt; roles.role(TWO) == Role::Nobody);
    assert!(rt; roles.chill(TWO) == Err(ListRefusal::NotListed));
    assert!(rt; roles.validate(TWO, 1_000_000_001) == Err(ListRefusal::BadFraction));
    Ok(())
}

/// Who takes a role is told the one before.
#[test]
fn the_role_before_is_told(rt: HostRuntime) -> Result<(), Fail> {
    let alloc = rt.alloc();
    let mut roles = Roles::new(alloc);
    assert_eq!(rt; roles.validate_anew(at(1), 7), Ok(Role::Nobody));
    assert_eq!(rt; roles.validate_anew(at(2), 5), Ok(Role::Nobody));
    assert_eq!(rt;
        roles.nominate_anew(at(2), list_of(alloc, &[at(1)])?),
        Ok(Role::Validator { commission: 5 })
    );
    assert_eq!(rt; roles.validate_anew(at(2), 3), Ok(Role::Nominator));
    Ok(())
}

/// Who left has no rank, and no vote either.
#[test]
fn votes_are_ranks_of_validators(rt: HostRuntime) -> Result<(), Fail> {
    let alloc = rt.alloc();
    let mut roles = Roles::new(alloc);
    for validator in [4, 2, 6] {
        roles.validate(at(validator), 0)?;
    }
    roles.nominate(at(3), list_of(alloc, &[at(6), at(2), at(4)])?)?;
    roles.nominate(at(1), list_of(alloc, &[at(4)])?)?;
    roles.chill(at(2))?;
    let mut electorate = roles.electorate(alloc)?;
    assert!(rt; electorate.most_voters() >= 4);
    let mut votes = Vec::new(alloc);
    let table: [(u8, &[u16]); 6] = [
        (3, &[1, 0]),
        (1, &[0]),
        (4, &[0]),
        (6, &[1]),
        (2, &[]),
        (9, &[]),
    ];
    for (who, ranks) in table {
        electorate.cast(at(who), &mut votes)?;
        assert_eq!(rt; votes.as_slice(), ranks);
    }
    Ok(())
}

#[test]
fn a_nomination_is_refused_for_its_first_fault(rt: HostRuntime) -> Result<(), Fail> {
    let alloc = rt.alloc();
    let mut roles = Roles::new(alloc);
    roles.validate(at(1), 0)?;
    let many = [at(1); 25];
    let table: [(&[AccountId], ListRefusal); 5] = [
        (&[], ListRefusal::NoTargets),
        (&many, ListRefusal::TooManyTargets),
        (&[at(9), at(1), at(9)], ListRefusal::RepeatedTarget),
        (&[at(1), at(9)], ListRefusal::NotValidator),
        (&[at(5)], ListRefusal::NotValidator),
    ];
    for (targets, refusal) in table {
        assert_eq!(rt;
            roles.nominate(at(5), list_of(alloc, targets)?),
            Err(refusal)
        );
    }
    Ok(())
}

#[test]
fn a_nominator_names_up_to_24_validators(rt: HostRuntime) -> Result<(), Fail> {
    let alloc = rt.alloc();
    let mut roles = Roles::new(alloc);
    let mut named = [at(0); 25];
    for n in 0..25 {
        named[n] = at(n as u8);
        roles.validate(named[n], 0)?;
    }
    let most = &named[..24];
    assert_eq!(rt; roles.nominate(at(30), list_of(alloc, most)?), Ok(()));
    let targets = roles.targets_of(at(30));
    assert_eq!(rt; targets.len(), 24);
    assert_eq!(rt; targets.at(23), at(23));
    assert_eq!(rt; targets.to_list(alloc)?.as_slice(), most);
    assert_eq!(rt;
        roles.nominate(at(30), list_of(alloc, &named)?),
        Err(ListRefusal::TooManyTargets)
    );
    Ok(())
}

#[test]
fn a_validator_too_many(rt: HostRuntime) -> Result<(), Fail> {
    let mut roles = Roles::new(rt.alloc());
    for n in 0..2048_u32 {
        let who = AccountId {
            hi: 1,
            lo: u128::from(n),
        };
        roles.validate(who, 0)?;
    }
    assert_eq!(rt;
        roles.validate(at(1), 0),
        Err(ListRefusal::TooManyValidators)
    );
    Ok(())
}

fn nth(n: u32) -> AccountId {
    AccountId {
        hi: 0,
        lo: u128::from(n),
    }
}

/// One bag, which so many accounts joined in turn.
fn crowd(alloc: Global, count: u32) -> Result<Bags, NoMemory> {
    let mut bags = Bags::new(alloc, List::new(alloc))?;
    for n in 0..count {
        let who = nth(n);
        if !bags.contains(who) {
            bags.insert(who, 1)?;
        }
    }
    Ok(bags)
}

fn leave(bags: &mut Bags, n: u32) {
    let who = nth(n);
    if bags.contains(who) {
        bags.remove(who);
    }
}

/// Whether the walk is that of these accounts.
fn finds(bags: &Bags, numbers: &[u32]) -> bool {
    let mut walk = bags.walk();
    for n in numbers {
        if walk.next() != Some(nth(*n)) {
            return false;
        }
    }
    walk.next().is_none()
}

#[test]
fn every_second_of_five_thousand_leaves_one_bag(rt: HostRuntime) -> Result<(), Fail> {
    let mut bags = crowd(rt.alloc(), 5000)?;
    let mut plain = Vec::new(rt.alloc());
    for n in 0..2500 {
        leave(&mut bags, 2 * n + 1);
        plain.push(2 * n)?;
    }
    let mut moved = Vec::new(rt.alloc());
    for n in 1..2499 {
        moved.push(2 * n)?;
    }
    moved.push(0)?;
    moved.push(4998)?;
    assert_eq!(rt;
        bags.put_in_front(nth(0), 7, nth(4998), 7),
        Err(ListRefusal::NotHeavier)
    );
    assert!(rt; finds(&bags, plain.as_slice()));
    assert_eq!(rt; bags.put_in_front(nth(0), 8, nth(4998), 7), Ok(()));
    assert!(rt; finds(&bags, moved.as_slice()));
    Ok(())
}

#[test]
fn the_middle_of_four_hundred_thousand_leaves_one_bag(rt: HostRuntime) -> Result<(), Fail> {
    let mut bags = crowd(rt.alloc(), 400_000)?;
    for n in 100_000..300_000 {
        leave(&mut bags, n);
    }
    let mut plain = Vec::new(rt.alloc());
    for n in 0..100_000 {
        plain.push(n)?;
    }
    for n in 300_000..400_000 {
        plain.push(n)?;
    }
    assert!(rt; finds(&bags, plain.as_slice()));
    Ok(())
}

#[test]
fn each_law_is_called(_rt: HostRuntime) {
    laws::calls_end_with_one_walk();
    laws::accounts_repeat_or_are_distinct();
    laws::a_walk_is_made_anew_in_its_order();
    laws::roles_stay_sound();
}
