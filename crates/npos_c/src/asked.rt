//! What the numbers of a call ask for.
ghost use Rattle.std.specs.Prelude.{◌≡◌, IfSome};
ghost use Rattle.npos_c.specs.Asked.{asked_of, AskedHasRounds};

use bundle_reports::Rewriting;
use election_work::Task;
use npos_base::Miner;

/// What is to be made of the bytes of a bundle.
#[derive(Clone, Copy, Debug)]
pub enum Asked {
    /// A report on it.
    OnBundle(Task),
    /// The bundle in its other form.
    Rewrite(Rewriting),
}

/// What a number asks for: 0 is a check, 1 to 3 are the miners, 4 packs and 5 shows.
pub fn asked_of(number: u32, rounds: u32) -> Option<Asked>
    ensures asked { result ≡ asked_of number rounds }
    ensures rounds { IfSome result AskedHasRounds }
{
    if number == 0 {
        return Some(Asked::OnBundle(Task::Check));
    }
    if number == 4 {
        return Some(Asked::Rewrite(Rewriting::Pack));
    }
    if number == 5 {
        return Some(Asked::Rewrite(Rewriting::Show));
    }
    match Miner::numbered(number, rounds) {
        Some(miner) => Some(Asked::OnBundle(Task::Mine(miner))),
        None => None,
    }
}
