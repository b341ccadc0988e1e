//! What holds of books and of their rows as values. Each law is the contract of a function that
//! does nothing.
ghost use Rattle.stake_ledger.specs.Laws.{SavedLaw, RestoredLaw, ReleasesLaw, RowReleasesLaw};
ghost use Rattle.stake_ledger.specs.Limits.{AreTheLimits};

/// Books are made anew from their rows: those of balanced books have no fault and make the same
/// books, and books that rows make have these rows. What is on its way out is released in the same
/// eras.
pub fn books_are_made_anew_from_their_rows()
    ensures saved { SavedLaw }
    ensures restored { RestoredLaw }
    ensures releases { ReleasesLaw }
    ensures rows { RowReleasesLaw }
{}

/// The limit that the code names is this number.
pub fn the_limits_are_these()
    ensures { AreTheLimits }
{}
