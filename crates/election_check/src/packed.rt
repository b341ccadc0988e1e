//! The check of packed solutions.
ghost use Rattle.std.specs.Prelude.{◌≡◌, [], ◌∷◌, OnOk, OnErr, IfOk};
ghost use Rattle.weight_book.specs.Weights.{no_weights, IsFeasible};
ghost use Rattle.weight_book.specs.Room.{HasRoom, KeepsRoom};
ghost use Rattle.election_check.specs.First.{answer_of, first_of};
ghost use Rattle.election_check.specs.Steps.{outweighed};
ghost use Rattle.election_check.specs.Packed.{expanded, expand_fault, expand_verdict, score_fault, verdict_solution, verdict_packed, weights_unless, weights_decoded};
ghost use Rattle.compact_solution.specs.Decoded.{decoded};

use crate::entries::{check_score, fill_weights};
use crate::fault::Fault;
use crate::prescores::check_prescores;
use crate::tables::Tables;
use crate::{Checker, Verdict};
use compact_solution::Solution;
use npos_base::{NoMemory, Score};
use scale_wire::fault::ReadFault;
use std::alloc::Global;
use weight_book::Weights;

impl Checker {
    /// Expands a solution into empty weights: the listed targets in rising order as the committee,
    /// and the edges in the order of the entries. The verdict is Yes, or the first fault of the
    /// entries or of the number of members; the weights are then empty. It takes no memory.
    pub fn expand(&mut self, solution: &Solution, weights: &mut Weights) -> Verdict
        requires empty { weights.old.plain ≡ no_weights }
        requires room { HasRoom self.old weights.old }
        ensures verdict { result ≡ expand_verdict self.old solution.now }
        ensures weights { weights.new.plain
            ≡ weights_unless (expand_fault self.old solution.now) (expanded self.old solution.now) }
        ensures room { KeepsRoom weights.old weights.new }
        ensures snapshot { self.new ≡ self.old }
    {
        match self.take_solution(solution, weights) {
            Ok(()) => Verdict::Yes,
            Err(fault) => {
                weights.clear();
                fault.verdict()
            }
        }
    }

    /// The verdict on a solution with a claimed score. Where it is Yes, or tells a wrong score or a
    /// target that outweighs, the weights are then the expanded ones, and else they are empty. It
    /// takes no memory.
    pub fn judge(&mut self, solution: &Solution, claim: &Score, weights: &mut Weights) -> Verdict
        requires empty { weights.old.plain ≡ no_weights }
        requires room { HasRoom self.old weights.old }
        ensures verdict { result ≡ verdict_solution self.old claim.now solution.now }
        ensures weights { weights.new.plain
            ≡ weights_unless (expand_fault self.old solution.now) (expanded self.old solution.now) }
        ensures room { KeepsRoom weights.old weights.new }
        ensures snapshot { self.new ≡ self.old }
    {
        match self.take_solution(solution, weights) {
            Ok(()) => match self.check_claim(claim, weights) {
                Ok(()) => Verdict::Yes,
                Err(fault) => fault.verdict(),
            },
            Err(fault) => {
                weights.clear();
                fault.verdict()
            }
        }
    }

    /// The verdict on bytes with a claimed score: as `judge`, or that they are no solution, and
    /// then the weights are empty. Memory is taken for the solution alone.
    pub fn judge_bytes(
        &mut self,
        alloc: Global,
        bytes: &[u8],
        claim: &Score,
        weights: &mut Weights,
    ) -> Result<Verdict, NoMemory>
        requires empty { weights.old.plain ≡ no_weights }
        requires room { HasRoom self.old weights.old }
        ensures verdict { IfOk result
            (λ verdict. verdict ≡ verdict_packed self.old claim.now bytes.now) }
        ensures weights { OnOk result
            (weights.new.plain ≡ weights_decoded self.old (decoded bytes.now)) }
        ensures refused { OnErr result (weights.new ≡ weights.old) }
        ensures room { KeepsRoom weights.old weights.new }
        ensures snapshot { self.new ≡ self.old }
    {
        match Solution::decode(alloc, bytes) {
            Ok(solution) => Ok(self.judge(&solution, claim, weights)),
            Err(ReadFault::Wire(fault)) => Ok(Verdict::Undecodable {
                at: fault.at,
                why: fault.why,
            }),
            Err(ReadFault::NoMemory) => Err(NoMemory),
        }
    }

    /// Fills empty weights, or tells the first fault of the entries or of the number of members.
    fn take_solution(&mut self, solution: &Solution, weights: &mut Weights) -> Result<(), Fault>
        requires empty { weights.old.plain ≡ no_weights }
        requires room { HasRoom self.old weights.old }
        ensures fault { result ≡ answer_of (expand_fault self.old solution.now) }
        ensures weights { OnOk result (weights.new.plain ≡ expanded self.old solution.now) }
        ensures room { KeepsRoom weights.old weights.new }
        ensures snapshot { self.new ≡ self.old }
    {
        let Checker { snapshot, tables } = self;
        let Tables {
            has_entry,
            stamps,
            ..
        } = tables;
        fill_weights(snapshot, solution, has_entry, stamps, weights)
    }

    /// Tells that the score is another one than the claim, or the lowest target outside that
    /// outweighs.
    fn check_claim(&mut self, claim: &Score, weights: &Weights) -> Result<(), Fault>
        requires { IsFeasible self.old weights.now.plain }
        ensures fault { result ≡ answer_of (first_of
            (score_fault claim.now weights.now.plain ∷ outweighed self.old weights.now.plain
            ∷ [])) }
        ensures snapshot { self.new ≡ self.old }
    {
        let Checker { snapshot, tables } = self;
        check_score(snapshot, claim, weights)?;
        check_prescores(snapshot, weights, tables)
    }
}
