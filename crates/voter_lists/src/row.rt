//! What is kept at the place of an account.
ghost use Rattle.std.specs.Prelude.{◌≡◌, ◌<◌, length, slice_get, Some};
ghost use Rattle.voter_lists.specs.Chosen.{chosen_in};
ghost use Rattle.voter_lists.specs.Noted.{Idle, Validating, Naming, role_noted, places_noted};

use crate::marks::Marks;
use crate::standing::Role;
use npos_base::List;
use std::marker::Model;

/// What an account does, and the places of those whom it names: in 32 bits each, if these hold them.
#[derive(Debug, Drop)]
enum Kind {
    Nobody,
    Validator { commission: u32 },
    Near { places: Marks },
    Far { places: List<usize> },
}

/// What is kept of an account that has a place: its role, and the places of those whom it names.
/// Contracts see what is noted.
#[derive(Debug, Drop)]
pub(crate) struct Row {
    kind: Kind,
}

/// The places of those whom an account names, in the order in which it named them.
#[derive(Clone, Copy, Debug)]
pub(crate) enum Chosen<'a> {
    Near(&'a [u32]),
    Far(&'a [usize]),
}

impl Model for Row {
    ghost use Rattle.voter_lists.specs.Noted.{Noted, noted_in};

    ghost Value = { Noted };

    ghost view = { λ r. noted_in r.kind };
}

impl<'a> Chosen<'a> {
    /// How many places there are.
    pub(crate) fn len(self) -> usize
        ensures { result ≡ length (chosen_in self.entry) }
    {
        match self {
            Chosen::Near(places) => places.len(),
            Chosen::Far(places) => places.len(),
        }
    }

    /// The place of this number.
    pub(crate) fn at(self, i: usize) -> usize
        requires { i < length (chosen_in self) }
        ensures { slice_get (chosen_in self.entry) i ≡ Some result }
    {
        match self {
            Chosen::Near(places) => places[i] as usize,
            Chosen::Far(places) => places[i],
        }
    }
}

impl Row {
    /// The row of an account that has no role. It names nobody.
    pub(crate) fn nobody() -> Row
        ensures { result ≡ Idle }
    {
        Row { kind: Kind::Nobody }
    }

    /// The row of a validator with this commission. It names nobody.
    pub(crate) fn validator(commission: u32) -> Row
        ensures { result ≡ Validating commission }
    {
        Row {
            kind: Kind::Validator { commission },
        }
    }

    /// The row of a nominator of the accounts at these places.
    pub(crate) fn near(places: Marks) -> Row
        ensures { result ≡ Naming places }
    {
        Row {
            kind: Kind::Near { places },
        }
    }

    /// The row of a nominator of the accounts at these places, some of which take more than 32 bits.
    pub(crate) fn far(places: List<usize>) -> Row
        ensures { result ≡ Naming places }
    {
        Row {
            kind: Kind::Far { places },
        }
    }

    /// The role of the account.
    pub(crate) fn role(&self) -> Role
        ensures { result ≡ role_noted self.now }
    {
        match &self.kind {
            Kind::Nobody => Role::Nobody,
            Kind::Validator { commission } => Role::Validator {
                commission: *commission,
            },
            Kind::Near { .. } | Kind::Far { .. } => Role::Nominator,
        }
    }

    /// The places of those whom the account names, in the order in which it named them.
    pub(crate) fn chosen(&self) -> Chosen<'_>
        ensures { chosen_in result ≡ places_noted self.now }
    {
        match &self.kind {
            Kind::Nobody | Kind::Validator { .. } => Chosen::Near(&[]),
            Kind::Near { places } => Chosen::Near(places.as_slice()),
            Kind::Far { places } => Chosen::Far(places.as_slice()),
        }
    }
}
