//! The numbers by which refusals are printed, as the rules list them. Streams meet those that some
//! dozen accounts can reach; one wants 2,049 validators.
use era_book::EraRefusal;
use npos_runtime::Refusal;
use stake_ledger::LedgerRefusal;
use std::test::Fail;
use voter_lists::ListRefusal;

/// What the books refuse, from the number 1 on.
const BY_BOOKS: [LedgerRefusal; 9] = [
    LedgerRefusal::LowFunds,
    LedgerRefusal::NotBonded,
    LedgerRefusal::AlreadyBonded,
    LedgerRefusal::BelowMinimum,
    LedgerRefusal::NoMoreChunks,
    LedgerRefusal::NoChunk,
    LedgerRefusal::ZeroValue,
    LedgerRefusal::SameAccount,
    LedgerRefusal::IssuanceCap,
];

/// What the lists refuse, from the number 10 on.
const BY_LISTS: [ListRefusal; 10] = [
    ListRefusal::NoTargets,
    ListRefusal::TooManyTargets,
    ListRefusal::RepeatedTarget,
    ListRefusal::NotValidator,
    ListRefusal::TooManyValidators,
    ListRefusal::BadFraction,
    ListRefusal::NotListed,
    ListRefusal::SameBag,
    ListRefusal::OtherBag,
    ListRefusal::NotHeavier,
];

/// What the eras refuse, from the number 21 on, beside a fraction that is out of range.
const BY_ERAS: [EraRefusal; 6] = [
    EraRefusal::UnknownEra,
    EraRefusal::EraNotOver,
    EraRefusal::NotExposed,
    EraRefusal::AlreadyClaimed,
    EraRefusal::NotGreater,
    EraRefusal::NoPoints,
];

/// What a runtime refuses of its own, with the numbers.
static BY_RUNTIME: [(Refusal, u32); 8] = [
    (Refusal::Era(EraRefusal::BadFraction), 15),
    (Refusal::NotBetter, 20),
    (Refusal::NotRoot, 27),
    (Refusal::WrongPhase, 28),
    (Refusal::WrongRound, 29),
    (Refusal::SolutionTooLong, 30),
    (Refusal::Era(EraRefusal::NoSlash), 31),
    (Refusal::Era(EraRefusal::TooManySlashes), 32),
];

#[test]
fn refusals_have_their_numbers(rt: HostRuntime) -> Result<(), Fail> {
    for i in 0..BY_BOOKS.len() {
        assert_eq!(rt; Refusal::Ledger(BY_BOOKS[i]).code(), i as u32 + 1);
    }
    for i in 0..BY_LISTS.len() {
        assert_eq!(rt; Refusal::List(BY_LISTS[i]).code(), i as u32 + 10);
    }
    for i in 0..BY_ERAS.len() {
        assert_eq!(rt; Refusal::Era(BY_ERAS[i]).code(), i as u32 + 21);
    }
    for &(refusal, number) in &BY_RUNTIME {
        assert_eq!(rt; refusal.code(), number);
    }
    Ok(())
}
