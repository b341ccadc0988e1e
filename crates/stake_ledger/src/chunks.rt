//! Stake on its way out.
ghost use Rattle.std.specs.Prelude.{◌≡◌, ◌+◌, ◌^◌, ◌<◌, ◌≤◌, ◌↔◌, [], length, IsTrue, OnErr, OnOk, IfErr};
ghost use Rattle.stake_ledger.specs.declared.chunks.TheConstants.{MOST_CHUNKS};
ghost use Rattle.stake_ledger.specs.Owed.{IsDue};
ghost use Rattle.stake_ledger.specs.Chunks.{chunk_sum, chunk_refusal, is_empty, with_chunk, without_latest, without_first, released, unreleased};
ghost use Rattle.stake_ledger.specs.Joining.{joins_last};

use crate::refusal::LedgerRefusal;
use npos_base::List;
use std::alloc::Global;
use std::marker::Model;

/// The most chunks that one account may have.
pub const MOST_CHUNKS: usize = 32;

/// Stake on its way out: `value` units that are free again from the era `release` on.
#[derive(Clone, Copy, Debug, PartialEq, Eq)]
pub struct Chunk {
    pub value: u64,
    pub release: u32,
}

/// The chunks of one account, by rising release.
#[derive(Drop)]
pub struct Chunks {
    items: Vec<Chunk>,
}

impl Model for Chunks {
    ghost use Rattle.std.specs.Prelude.{List};
    ghost use Rattle.stake_ledger.specs.declared.chunks.Chunk.{Chunk};

    ghost Value = { List Chunk };

    ghost view = { λ chunks. chunks.items.items };
}

impl Chunks {
    /// No chunk. It takes no memory yet.
    pub fn new(alloc: Global) -> Chunks
        ensures { result ≡ [] }
    {
        Chunks {
            items: Vec::new(alloc),
        }
    }

    /// The chunks of a list. It takes no memory.
    pub fn from_list(chunks: List<Chunk>) -> Chunks
        ensures { result ≡ chunks }
    {
        Chunks {
            items: chunks.into_vec(),
        }
    }

    /// The chunks, in order.
    pub fn as_slice(&self) -> &[Chunk]
        ensures { result.now ≡ self.now }
    {
        self.items.as_slice()
    }

    /// Whether there is no chunk.
    pub fn is_empty(&self) -> bool
        ensures { result ≡ is_empty self.now }
    {
        self.items.is_empty()
    }

    /// What the chunks hold together.
    pub fn sum(&self) -> u64
        requires { chunk_sum self.now < 2 ^ 64 }
        ensures { result ≡ chunk_sum self.now }
    {
        self.items.iter().map(|chunk| chunk.value).sum()
    }

    /// Whether the last chunk has this release.
    fn joins_last(&self, release: u32) -> bool
        ensures { result ≡ joins_last release self.now }
    {
        match self.items.last() {
            Some(chunk) => chunk.release == release,
            None => false,
        }
    }

    /// Joins the amount to the last chunk where that has the same release, else puts a new chunk
    /// last.
    #[tactic(auto, using(crate::proofs::ChunkLemmas::chunk_steps))]
    pub fn add(&mut self, amount: u64, release: u32) -> Result<(), LedgerRefusal>
        requires sum { chunk_sum self.old + amount < 2 ^ 64 }
        requires few { length self.old ≤ MOST_CHUNKS }
        ensures ok { OnOk result ((chunk_refusal amount release self.old ≡ None)
            × (self.new ≡ with_chunk amount release self.old)) }
        ensures err { OnErr result (self.new ≡ self.old) }
        ensures refused { IfErr result
            (IsDue (chunk_refusal amount release self.old)) }
    {
        if self.joins_last(release) {
            let last = self.items.len() - 1;
            self.items[last].value += amount;
            return Ok(());
        }
        if self.items.len() >= MOST_CHUNKS {
            return Err(LedgerRefusal::NoMoreChunks);
        }
        self.items.push(Chunk {
            value: amount,
            release,
        })?;
        Ok(())
    }

    /// Takes the amount from the latest chunk first; emptied chunks go.
    #[tactic(auto, using(crate::proofs::ChunkLemmas::taken_within, crate::proofs::ChunkLemmas::taken_past, crate::proofs::ChunkLemmas::pushed_sum))]
    pub fn take_latest(&mut self, amount: u64)
        requires { amount ≤ chunk_sum self.old }
        ensures { self.new ≡ without_latest amount self.old }
    {
        let mut left = amount;
        'chunks: while let Some(&last) = self.items.last() {
            if left < last.value {
                let place = self.items.len() - 1;
                self.items[place].value -= left;
                return;
            }
            left -= last.value;
            let _ = self.items.pop();
        }
    }

    /// Takes the amount from the first chunk first; emptied chunks go.
    #[tactic(auto, using(crate::proofs::ChunkLemmas::first_within, crate::proofs::ChunkLemmas::first_past))]
    pub fn take_first(&mut self, amount: u64)
        ensures { self.new ≡ without_first amount self.old }
    {
        let mut left = amount;
        'chunks: while let Some(&first) = self.items.first() {
            if left < first.value {
                self.items[0].value -= left;
                return;
            }
            left -= first.value;
            let _ = self.items.remove(0);
        }
    }

    /// Takes out the chunks that are released by this era, and answers what they held.
    pub fn release(&mut self, era: u32) -> u64
        requires { chunk_sum self.old < 2 ^ 64 }
        ensures amount { result ≡ chunk_sum (released era self.old) }
        ensures chunks { self.new ≡ unreleased era self.old }
    {
        let freed = self
            .items
            .iter()
            .filter(|chunk| chunk.release <= era)
            .map(|chunk| chunk.value)
            .sum();
        self.items.retain(|chunk| chunk.release > era);
        freed
    }
}
