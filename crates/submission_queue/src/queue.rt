//! The submissions that wait to be judged.
ghost use Rattle.std.specs.Prelude.{◌≡◌, ◌≤◌, ◌<◌, length, drop, slice_get, vec_len, vec_capacity, IfOk, OnErr, Some};
ghost use Rattle.std.specs.List.{position_or_len};
ghost use Rattle.npos_base.specs.Score.{is_better};
ghost use Rattle.npos_base.specs.declared.limits.TheConstants.{MOST_QUEUED};
ghost use Rattle.submission_queue.specs.Rank.{placed};
ghost use Rattle.submission_queue.specs.Ranking.{IsOrdered, empty_queue, offered, offer_answer};

use crate::{NotBetter, Submission};
use npos_base::{NoMemory, Score};
use std::alloc::Global;
use std::marker::Model;

/// A queue of submissions by rank: the best claim first, and an earlier one before a later one that
/// claims the same. Contracts see it as the submissions that wait and the number of places.
#[derive(Debug, Drop)]
pub struct Queue {
    items: Vec<Submission>,
    places: u32,
}

impl Model for Queue {
    ghost use Rattle.std.specs.Prelude.{◌≤◌};
    ghost use Rattle.std.specs.Vec.{vec_capacity};
    ghost use Rattle.submission_queue.specs.Ranking.{Ranking, IsOrdered};

    ghost Value = { Ranking };

    ghost view = { λ q. record { items = q.items.items; places = q.places } };

    ghost invariant = { λ q.
        IsOrdered (record { items = q.items.items; places = q.places })
        × (q.places ≤ vec_capacity q.items) };
}

/// The place of a claim among submissions by rank: before the first that it is better than, or
/// behind all of them.
fn place_of(items: &[Submission], score: &Score) -> usize
    ensures { result ≡ position_or_len (λ queued. is_better score.now queued.score) items.now }
{
    items
        .iter()
        .position(|queued| score.better_than(&queued.score))
        .unwrap_or(items.len())
}

/// Puts the item at its place by rank. There is room, so it takes no memory.
fn put(items: &mut Vec<Submission>, item: Submission)
    requires { vec_len items.old < vec_capacity items.old }
    ensures items { items.new.items ≡ placed items.old.items item }
    ensures capacity { vec_capacity items.old ≤ vec_capacity items.new }
{
    let place = place_of(items, &item.score);
    match items.insert(place, item) {
        Ok(()) => {}
        Err(_) => unreachable!(),
    }
}

impl Queue {
    /// A queue with places for `max` submissions, in which nothing waits. It takes all its memory
    /// here.
    pub fn new(alloc: Global, max: u32) -> Result<Queue, NoMemory>
        requires some { 1 ≤ max }
        requires most { max ≤ MOST_QUEUED }
        ensures { IfOk result (λ queue. queue ≡ empty_queue max) }
    {
        let items = Vec::with_capacity(alloc, max as usize)?;
        Ok(Queue { items, places: max })
    }

    /// Offers a submission. While there is a free place it is taken. A full queue takes it where
    /// its claim is better than that of the last one by rank, which is handed out; otherwise the
    /// submission is handed back, and nothing changes. It takes no memory, and at most as many
    /// steps as there are places.
    pub fn offer(&mut self, item: Submission) -> Result<Option<Submission>, (NotBetter, Submission)>
        ensures answer { result ≡ offer_answer self.old item }
        ensures after { self.new ≡ offered self.old item }
        ensures refused { OnErr result (self.new ≡ self.old) }
    {
        if self.items.len() < self.places as usize {
            put(&mut self.items, item);
            return Ok(None);
        }
        let Some(last) = self.items.last() else {
            unreachable!()
        };
        let worst = last.score;
        if !item.score.better_than(&worst) {
            return Err((NotBetter { worst }, item));
        }
        let ejected = self.items.pop();
        put(&mut self.items, item);
        Ok(ejected)
    }

    /// Takes the best submission out, the earliest of the best claims. None where nothing waits. It
    /// takes no memory.
    pub fn take_best(&mut self) -> Option<Submission>
        ensures best { result ≡ slice_get self.old.items 0 }
        ensures rest { self.new ≡ record self.old { items = drop 1 self.old.items } }
    {
        if self.items.is_empty() {
            return None;
        }
        Some(self.items.remove(0))
    }

    /// The submissions that wait, by rank.
    pub fn items(&self) -> &[Submission]
        ensures items { result.now ≡ self.now.items }
        ensures ordered { IsOrdered self.now }
    {
        self.items.as_slice()
    }

    /// The submission at this place by rank.
    pub fn item(&self, i: usize) -> &Submission
        requires { i < length self.now.items }
        ensures { slice_get self.now.items i ≡ Some result.now }
    {
        &self.items[i]
    }

    /// How many submissions wait.
    pub fn len(&self) -> usize
        ensures { result ≡ length self.now.items }
    {
        self.items.len()
    }

    /// How many submissions can wait at a time.
    pub fn max(&self) -> u32
        ensures { result ≡ self.now.places }
    {
        self.places
    }
}
