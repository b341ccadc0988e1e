//! What no clause says: that the calls succeed where there is memory, and the worked chunks.
use npos_base::{AccountId, List, NoMemory};
use stake_ledger::{Book, BookRow, Chunk, LedgerRefusal, Loss, RowsFault, Totals, laws};
use std::alloc::Global;
use std::fmt::Write;
use std::test::Fail;

const FIRST: AccountId = AccountId { hi: 0, lo: 1 };

const SECOND: AccountId = AccountId { hi: 0, lo: 2 };

/// Endows an account that the books do not know.
fn endow(book: &mut Book, who: AccountId, value: u64) -> Result<(), LedgerRefusal> {
    if book.knows(who) || book.totals().minted > 0 {
        return Err(LedgerRefusal::NoMemory);
    }
    book.endow(who, value)
}

/// Unbonds with a release that no chunk passes.
fn unbond(book: &mut Book, value: u64, release: u32) -> Result<u64, LedgerRefusal> {
    if !book
        .chunks(FIRST)
        .iter()
        .all(|chunk| chunk.release <= release)
    {
        return Err(LedgerRefusal::NoMemory);
    }
    book.unbond(FIRST, value, release, 0)
}

/// Books where the first account was endowed with 100 and bonded all of it.
fn bonded_book(alloc: Global) -> Result<Book, LedgerRefusal> {
    let mut book = Book::new(alloc);
    endow(&mut book, FIRST, 100)?;
    book.bond(FIRST, 100, 1)?;
    Ok(book)
}

/// The worked chunks: 30 unbonded twice, nothing to withdraw yet, then 70 rebonded.
fn worked_chunks(alloc: Global) -> Result<(Totals, Totals), LedgerRefusal> {
    let mut book = bonded_book(alloc)?;
    unbond(&mut book, 30, 28)?;
    unbond(&mut book, 30, 28)?;
    book.withdraw(FIRST, 0)?;
    let before = book.totals();
    book.rebond(FIRST, 70)?;
    Ok((before, book.totals()))
}

#[test]
fn chunks_are_rebonded(rt: HostRuntime) -> Result<(), Fail> {
    let (before, after) = worked_chunks(rt.alloc())?;
    assert_eq!(rt; (before.free, before.active, before.unlocking), (0, 40, 60));
    assert_eq!(rt;
        (
            before.deposits,
            before.minted,
            before.burned,
            before.issuance
        ),
        (0, 0, 0, 100)
    );
    assert_eq!(rt; (after.free, after.active, after.unlocking), (0, 100, 0));
    Ok(())
}

/// One call for each refusal of the table, by number.
fn refusals(alloc: Global) -> Result<[Result<(), LedgerRefusal>; 5], LedgerRefusal> {
    let mut book = bonded_book(alloc)?;
    endow(&mut book, SECOND, 10)?;
    Ok([
        book.bond_extra(SECOND, 5),
        book.bond(FIRST, 5, 1),
        book.bond(SECOND, 5, 6),
        book.rebond(FIRST, 1).map(|_| ()),
        endow(&mut book, AccountId { hi: 0, lo: 3 }, u64::MAX),
    ])
}

#[test]
fn calls_are_refused(rt: HostRuntime) -> Result<(), Fail> {
    let wanted = [
        Err(LedgerRefusal::NotBonded),
        Err(LedgerRefusal::AlreadyBonded),
        Err(LedgerRefusal::BelowMinimum),
        Err(LedgerRefusal::NoChunk),
        Err(LedgerRefusal::IssuanceCap),
    ];
    assert!(rt; refusals(rt.alloc())? == wanted);
    Ok(())
}

/// What a transfer of 40 leaves, and what the readers say of both accounts.
fn transfer_readings(alloc: Global) -> Result<(u64, u64, bool, u64, bool, u64), LedgerRefusal> {
    let mut book = bonded_book(alloc)?;
    endow(&mut book, SECOND, 50)?;
    book.transfer(SECOND, FIRST, 40)?;
    book.bond_extra(FIRST, 15)?;
    Ok((
        book.free(FIRST),
        book.free(SECOND),
        book.bonded(SECOND),
        book.active(FIRST),
        book.knows(SECOND),
        book.room(),
    ))
}

#[test]
fn stake_moves(rt: HostRuntime) -> Result<(), Fail> {
    assert_eq!(rt;
        transfer_readings(rt.alloc())?,
        (25, 10, false, 115, true, 9_223_372_036_854_775_657)
    );
    Ok(())
}

/// An account that shares its last bytes with another of the first hundred.
fn twin(number: u32) -> AccountId {
    AccountId {
        hi: u128::from(number),
        lo: u128::from(number % 50),
    }
}

/// How many of a hundred accounts have what they were endowed with.
fn right_rows(alloc: Global) -> Result<u32, LedgerRefusal> {
    let mut book = Book::new(alloc);
    for number in 0u32..100 {
        endow(&mut book, twin(number), u64::from(number))?;
    }
    let mut right = 0u32;
    for number in 0u32..100 {
        if book.free(twin(number)) == u64::from(number) && right < 100 {
            right += 1;
        }
    }
    Ok(right)
}

#[test]
fn accounts_with_the_same_last_bytes_have_their_own_rows(rt: HostRuntime) -> Result<(), Fail> {
    assert_eq!(rt; right_rows(rt.alloc())?, 100);
    Ok(())
}

/// Books where the first account has 60 active, a chunk of 30 and then one of 10.
fn chunked(alloc: Global) -> Result<Book, LedgerRefusal> {
    let mut book = bonded_book(alloc)?;
    unbond(&mut book, 30, 28)?;
    unbond(&mut book, 10, 29)?;
    Ok(book)
}

/// What is active, how many chunks stand, and the sums that a slash of 75 and one of 100 then
/// leave, with what each took.
fn slashes(alloc: Global) -> Result<[(u64, u64, usize, u64); 2], LedgerRefusal> {
    let mut book = chunked(alloc)?;
    let first = book.slash(FIRST, 75);
    let after = (
        first,
        book.active(FIRST),
        book.chunks(FIRST).len(),
        book.totals().unlocking,
    );
    let second = book.slash(FIRST, 100);
    Ok([
        after,
        (
            second,
            book.active(FIRST),
            book.chunks(FIRST).len(),
            book.totals().burned,
        ),
    ])
}

#[test]
fn slashes_take_what_is_active_first(rt: HostRuntime) -> Result<(), Fail> {
    assert!(rt; slashes(rt.alloc())? == [(75, 0, 2, 25), (25, 0, 0, 100)]);
    Ok(())
}

/// What is free and held after a deposit of 60 was held, then 25 of it returned, then 5 of it
/// burned.
fn deposits(alloc: Global) -> Result<[(u64, u64); 3], LedgerRefusal> {
    let mut book = Book::new(alloc);
    endow(&mut book, FIRST, 100)?;
    book.hold_deposit(FIRST, 60)?;
    let held = (book.free(FIRST), book.held(FIRST));
    if held.1 >= 25 {
        book.return_deposit(FIRST, 25);
    }
    let returned = (book.free(FIRST), book.held(FIRST));
    if returned.1 >= 5 {
        book.burn_deposit(FIRST, 5);
    }
    Ok([held, returned, (book.free(FIRST), book.held(FIRST))])
}

#[test]
fn deposits_are_held(rt: HostRuntime) -> Result<(), Fail> {
    assert!(rt; deposits(rt.alloc())? == [(40, 60), (65, 35), (65, 30)]);
    Ok(())
}

/// A deposit of 0 makes an account known, which then is given 7.
fn mint_readings(alloc: Global) -> Result<(bool, u64, Totals), LedgerRefusal> {
    let mut book = Book::new(alloc);
    let before = book.knows(FIRST);
    book.hold_deposit(FIRST, 0)?;
    if book.knows(FIRST) {
        book.mint_free(FIRST, 7)?;
    }
    Ok((before, book.free(FIRST), book.totals()))
}

#[test]
fn stake_is_minted(rt: HostRuntime) -> Result<(), Fail> {
    let (before, free, totals) = mint_readings(rt.alloc())?;
    assert_eq!(rt;
        (before, free, totals.minted, totals.issuance),
        (false, 7, 7, 7)
    );
    Ok(())
}

/// What is free for an account that was not known after 7 was minted to it, and whether more than
/// may be issued is refused.
fn opening_mints(alloc: Global) -> Result<(u64, bool), LedgerRefusal> {
    let mut book = Book::new(alloc);
    book.mint_from(0, SECOND, 7)?;
    let refused = matches!(
        book.mint_from(0, FIRST, u64::MAX),
        Err(LedgerRefusal::IssuanceCap)
    );
    Ok((book.free(SECOND), refused && !book.knows(FIRST)))
}

#[test]
fn minting_opens_a_row(rt: HostRuntime) -> Result<(), Fail> {
    assert_eq!(rt; opening_mints(rt.alloc())?, (7, true));
    Ok(())
}

/// What is active, found by a wrong guess and then by a right one, and where the next account is
/// guessed each time.
fn guessed_readings(alloc: Global) -> Result<[(u64, usize); 2], LedgerRefusal> {
    let mut book = bonded_book(alloc)?;
    endow(&mut book, SECOND, 10)?;
    let mut guess = 1;
    let first = book.active_from(&mut guess, FIRST);
    let behind = guess;
    let second = book.active_from(&mut guess, SECOND);
    Ok([(first, behind), (second, guess)])
}

/// What both have free after the second paid 4 and got 3 back, where the second is found by its
/// guess, and the first by none or by that of the second.
fn guessed_transfers(alloc: Global) -> Result<(u64, u64), LedgerRefusal> {
    let mut book = bonded_book(alloc)?;
    endow(&mut book, SECOND, 10)?;
    let second = book.guess(SECOND) as usize;
    book.transfer_from((second, second), SECOND, FIRST, 4)?;
    book.transfer_from((usize::MAX, second), FIRST, SECOND, 3)?;
    Ok((book.free(FIRST), book.free(SECOND)))
}

/// What is free after 7 was minted, and what a slash of 40 and one of 100 then take, by a guess.
fn guessed_calls(alloc: Global) -> Result<(u64, [Loss; 2]), LedgerRefusal> {
    let mut book = bonded_book(alloc)?;
    let guess = book.guess(FIRST) as usize;
    book.mint_from(guess, FIRST, 7)?;
    let losses = [
        book.slash_from(guess, FIRST, 40),
        book.slash_from(guess, FIRST, 100),
    ];
    Ok((book.free(FIRST), losses))
}

#[test]
fn accounts_are_found_by_guesses(rt: HostRuntime) -> Result<(), Fail> {
    assert!(rt; guessed_readings(rt.alloc())? == [(100, 1), (0, 2)]);
    let losses = [
        Loss {
            burned: 40,
            bonded: true,
        },
        Loss {
            burned: 60,
            bonded: false,
        },
    ];
    assert!(rt; guessed_calls(rt.alloc())? == (7, losses));
    assert_eq!(rt; guessed_transfers(rt.alloc())?, (1, 9));
    Ok(())
}

/// A row: an account and what is free, beside 20 active and 3 held, and as many chunks of one
/// value, whose releases rise by a step.
#[derive(Clone, Copy)]
struct Made {
    who: u8,
    free: u64,
    chunks: u32,
    value: u64,
    step: u32,
}

/// A row with nothing free and no chunks.
const BARE: Made = Made {
    who: 0,
    free: 0,
    chunks: 0,
    value: 0,
    step: 0,
};

/// Rows, what the genesis gave, was minted and burned, and what is told of them: the first bad row,
/// that the sums fail, or each row with its chunks.
static MADE: [(&[Made], (u64, u64, u64), &str); 12] = [
    (&[], (0, 0, 0), "0 known: "),
    (&[], (7, 0, 7), "0 known: "),
    (
        &[
            Made {
                who: 1,
                free: 7,
                ..BARE
            },
            Made {
                who: 4,
                chunks: 2,
                value: 5,
                step: 1,
                ..BARE
            },
        ],
        (70, 3, 10),
        "2 known: 1 7 20 0 3, 4 0 20 10 3, ",
    ),
    (
        &[Made {
            who: 2,
            chunks: 32,
            value: 1,
            step: 1,
            ..BARE
        }],
        (55, 0, 0),
        "1 known: 2 0 20 32 3, ",
    ),
    (
        &[Made {
            who: 2,
            chunks: 33,
            value: 1,
            step: 1,
            ..BARE
        }],
        (56, 0, 0),
        "bad at 0",
    ),
    (
        &[Made {
            who: 2,
            chunks: 2,
            value: 5,
            ..BARE
        }],
        (33, 0, 0),
        "bad at 0",
    ),
    (
        &[Made {
            who: 2,
            chunks: 1,
            step: 1,
            ..BARE
        }],
        (23, 0, 0),
        "bad at 0",
    ),
    (
        &[Made { who: 2, ..BARE }, Made { who: 2, ..BARE }],
        (46, 0, 0),
        "bad at 1",
    ),
    (
        &[
            Made { who: 2, ..BARE },
            Made {
                who: 1,
                chunks: 2,
                value: 5,
                ..BARE
            },
        ],
        (0, 0, 0),
        "bad at 1",
    ),
    (&[Made { who: 2, ..BARE }], (20, 4, 0), "sum"),
    (
        &[Made {
            who: 2,
            free: 1 << 63,
            ..BARE
        }],
        ((1 << 63) + 23, 0, 0),
        "sum",
    ),
    (
        &[
            Made {
                who: 2,
                free: u64::MAX,
                ..BARE
            },
            Made { who: 3, ..BARE },
        ],
        (22, 0, 0),
        "sum",
    ),
];

fn push<T: Drop>(list: &mut List<T>, item: T) -> Result<(), NoMemory> {
    match list.push(item) {
        Ok(()) => Ok(()),
        Err(_) => Err(NoMemory),
    }
}

fn row(alloc: Global, made: &Made) -> Result<BookRow, NoMemory> {
    let value = made.value;
    let mut chunks = List::new(alloc);
    for number in 0..made.chunks {
        let release = number.wrapping_mul(made.step);
        push(&mut chunks, Chunk { value, release })?;
    }
    Ok(BookRow {
        who: AccountId {
            hi: 0,
            lo: u128::from(made.who),
        },
        free: made.free,
        active: 20,
        chunks,
        held: 3,
    })
}

/// Each row of the books, as they answer it and by account.
fn tell(alloc: Global, book: &Book, text: &mut String) -> Result<(), Fail> {
    write!(text, "{} known: ", book.account_count())?;
    let rows = book.to_rows(alloc)?;
    for (place, row) in rows.as_slice().iter().enumerate() {
        if place < book.account_count() && book.account_at(place) == row.who {
            let chunks = row.chunks.as_slice().iter();
            let away = chunks.fold(0u64, |sum, chunk| sum.wrapping_add(chunk.value));
            write!(
                text,
                "{} {} {} {away} {}, ",
                row.who.lo, row.free, row.active, row.held
            )?;
        }
    }
    Ok(())
}

fn told_of_rows(alloc: Global, made: &[Made], sums: (u64, u64, u64)) -> Result<String, Fail> {
    let mut rows = List::new(alloc);
    for one in made {
        push(&mut rows, row(alloc, one)?)?;
    }
    let mut text = String::new(alloc);
    match Book::from_rows(alloc, rows, sums.0, sums.1, sums.2) {
        Ok(book) => tell(alloc, &book, &mut text)?,
        Err(RowsFault::BadRow(place)) => write!(text, "bad at {place}")?,
        Err(RowsFault::BadSum) => write!(text, "sum")?,
        Err(RowsFault::NoMemory) => write!(text, "no memory")?,
    }
    Ok(text)
}

#[test]
fn books_are_made_of_rows(rt: HostRuntime) -> Result<(), Fail> {
    for (rows, sums, told) in &MADE {
        let text = told_of_rows(rt.alloc(), rows, *sums)?;
        assert_eq!(rt; text.as_str(), *told);
    }
    Ok(())
}

/// The rows of a book in whatever order the accounts came are those of the book that they make.
#[test]
fn a_book_is_made_anew(rt: HostRuntime) -> Result<(), Fail> {
    let alloc = rt.alloc();
    let mut book = Book::new(alloc);
    for number in [70u32, 20, 50, 10, 99] {
        endow(&mut book, twin(number), u64::from(number))?;
    }
    book.bond(twin(50), 30, 1)?;
    let again = Book::from_rows(alloc, book.to_rows(alloc)?, 249, 0, 0)?;
    let mut first = String::new(alloc);
    tell(alloc, &book, &mut first)?;
    let mut second = String::new(alloc);
    tell(alloc, &again, &mut second)?;
    assert_eq!(rt; first.as_str(), second.as_str());
    assert_eq!(rt;
        first.as_str(),
        "5 known: 10 10 0 0 0, 20 20 0 0 0, 0 20 30 0 0, 20 70 0 0 0, 49 99 0 0 0, "
    );
    Ok(())
}

#[test]
fn each_law_is_called(_rt: HostRuntime) {
    laws::books_are_made_anew_from_their_rows();
}
