//! The marks of accounts: their places, which never change, or that they are not known.
ghost use Rattle.std.specs.Prelude.{◌≡◌, ◌≢◌, ◌≤◌, length, take, IfOk};
ghost use Rattle.voter_lists.specs.Marks.{unknown, IsMark, AreMarks};

use account_places::Places;
use npos_base::{AccountId, List, NoMemory};
use std::alloc::Global;
use std::marker::Model;

/// The mark of an account whose place is not known.
pub(crate) const UNKNOWN: u32 = 0xffff_ffff;

/// How many marks take no memory of their own. With their count, so many are as large as a list
/// without its items.
const FEW: usize = 5;

/// Marks where they stand.
#[derive(Debug, Drop)]
enum Held {
    /// So many from the first one on. Those behind them say nothing.
    Few { count: u32, marks: [u32; FEW] },
    Many(List<u32>),
}

/// The marks of the targets of a nominator, in their order. Few of them stand in the value itself,
/// since memory of their own would cost more than they do. Contracts see the list of them.
#[derive(Debug, Drop)]
pub(crate) struct Marks {
    held: Held,
}

impl Model for Marks {
    ghost use Rattle.std.specs.Prelude.{List, ℕ};

    ghost Value = { List ℕ };

    ghost use Rattle.voter_lists.specs.Held.{marks_in, IsWithin};

    ghost view = { λ m. marks_in m.held };

    ghost invariant = { λ m. IsWithin m.held };
}

impl Marks {
    /// The first of these marks, as many as `count` says. It takes no memory.
    fn few(count: usize, marks: [u32; FEW]) -> Marks
        requires { count ≤ length marks }
        ensures { result ≡ take count marks }
    {
        Marks {
            held: Held::Few {
                count: count as u32,
                marks,
            },
        }
    }

    /// The marks of a list. It takes no memory.
    fn many(marks: List<u32>) -> Marks
        ensures { result ≡ marks }
    {
        Marks {
            held: Held::Many(marks),
        }
    }

    /// The marks, in order.
    pub(crate) fn as_slice(&self) -> &[u32]
        ensures { result.now ≡ self.now }
    {
        match &self.held {
            Held::Few { count, marks } => &marks.as_slice()[..*count as usize],
            Held::Many(marks) => marks.as_slice(),
        }
    }
}

/// The marks of these accounts. Each is found once. Those of few take no memory and are not guessed,
/// since the mark of an account that is not known is beyond all places.
pub(crate) fn marks_of(
    alloc: Global,
    places: &Places,
    accounts: &[AccountId],
) -> Result<Marks, NoMemory>
    ensures { IfOk result (λ marks. AreMarks places.now marks accounts.now) }
{
    if accounts.len() > FEW {
        return many_marks(alloc, places, accounts);
    }
    let mut marks = [UNKNOWN; FEW];
    put_marks(places, accounts, &mut marks[..accounts.len()]);
    Ok(Marks::few(accounts.len(), marks))
}

/// The marks of any number of accounts. Where they may stand is guessed for all before the first is
/// looked at, so the guesses do not wait for the accounts.
fn many_marks(alloc: Global, places: &Places, accounts: &[AccountId]) -> Result<Marks, NoMemory>
    ensures { IfOk result (λ marks. AreMarks places.now marks accounts.now) }
{
    let mut marks = Vec::with_capacity(alloc, accounts.len())?;
    places.guess_each(accounts, &mut marks)?;
    put_marks(places, accounts, marks.as_mut_slice());
    Ok(Marks::many(List::from_vec(marks)))
}

/// Puts the mark of each of these accounts in place of its guess.
fn put_marks(places: &Places, accounts: &[AccountId], marks: &mut [u32])
    requires { length marks.old ≡ length accounts.now }
    ensures { AreMarks places.now marks.new accounts.now }
{
    for (i, account) in accounts.iter().enumerate() {
        marks[i] = mark_from(places, marks[i], *account);
    }
}

/// The mark of an account, which may stand at the place that is guessed.
fn mark_from(places: &Places, guess: u32, who: AccountId) -> u32
    ensures { IsMark places.now result who }
{
    match places.find_from(guess as usize, who) {
        Some(place) => mark_of(place),
        None => UNKNOWN,
    }
}

/// The mark of a place. One that is too high for a mark is as one that is not known.
fn mark_of(place: usize) -> u32
    ensures { result ≢ unknown → result ≡ place }
{
    match u32::try_from(place) {
        Ok(mark) => mark,
        Err(_) => UNKNOWN,
    }
}
