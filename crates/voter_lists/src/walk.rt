//! The walk over the bags.
ghost use Rattle.std.specs.Prelude.{◌≡◌};
ghost use Rattle.std.specs.Iterator.{YieldsFirst, item_count};
ghost use Rattle.voter_lists.specs.BagRows.{falling};
ghost use Rattle.voter_lists.specs.Nodes.{bags_in, IsStanding};

use crate::nodes::Nodes;
use npos_base::AccountId;
use std::marker::Model;

/// A walk over the bags, from the highest bag down and within a bag from head to tail. Contracts
/// see the accounts that it has still to come to. A whole walk looks at each account and each bag
/// once, and takes no memory.
#[derive(Drop)]
pub struct Walk<'a> {
    nodes: &'a Nodes,
    // the place that is next in the bag of this number, or none, and then a lower bag is next
    here: Option<usize>,
    number: usize,
}

impl<'a> Model for Walk<'a> {
    ghost use Rattle.std.specs.Prelude.{List};
    ghost use Rattle.npos_base.specs.declared.account.AccountId.{AccountId};
    ghost use Rattle.voter_lists.specs.Nodes.{ahead, IsWalk};

    ghost Value = { List AccountId };

    ghost view = { λ w. ahead w.nodes.now w.number w.here };

    ghost invariant = { λ w. IsWalk w.nodes.now w.number w.here };
}

impl<'a> Walk<'a> {
    /// The walk over all bags.
    pub(crate) fn over(nodes: &'a Nodes) -> Walk<'a>
        requires { IsStanding nodes.now }
        ensures { result ≡ falling (bags_in nodes.now) }
    {
        Walk {
            nodes,
            here: None,
            number: nodes.count(),
        }
    }
}

impl<'a> Iterator for Walk<'a> {
    type Item = AccountId;

    ghost next_gives = { YieldsFirst (λ left. left) };

    ghost remaining = { item_count (λ left. left) };

    fn next(&mut self) -> Option<AccountId> {
        let (number, place) = self.nodes.next_place(self.here, self.number)?;
        self.number = number;
        self.here = self.nodes.next_in(place, number);
        Some(self.nodes.account(place, number))
    }
}
