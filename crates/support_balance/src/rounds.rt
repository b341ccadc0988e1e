//! Rounds of turns, one at each voter in order. After the first round the turns at voters that have
//! no edge or a single one are left out, since they change nothing.
ghost use Rattle.std.specs.Prelude.{◌≡◌, ◌≢◌, ℕ, ◌<◌, ◌≤◌, List, length, slice_index_or};
ghost use Rattle.std.specs.Vec.{vec_capacity};
ghost use Rattle.npos_base.specs.declared.figures.Edge.{Edge};
ghost use Rattle.support_balance.specs.Rounds.{IsRound, IsBalanced};
ghost use Rattle.support_balance.specs.Rows.{AreAlike, amounts, differs};
ghost use Rattle.support_balance.specs.Laid.{Covers, AreKept};
ghost use Rattle.support_balance.specs.Spans.{AreSpans};

use crate::spans::{Span, note};
use crate::turn::turn;
use election_snapshot::Snapshot;
use npos_base::Edge;

/// Makes rounds until one changes nothing or the asked number is made, and tells how many. What
/// stands in `spans` does not matter: their room is handed in so that no memory is taken.
pub(crate) fn rounds(
    asked: u32,
    snapshot: &Snapshot,
    edges: &mut [Edge],
    supports: &mut [u128],
    spans: &mut Vec<Span>,
) -> u32
    requires kept { AreKept supports.old edges.old }
    requires room { length snapshot.now.voters ≤ vec_capacity spans.old }
    ensures kept { AreKept supports.new edges.new }
    ensures count { length supports.new ≡ length supports.old }
    ensures alike { AreAlike edges.old edges.new }
    ensures balanced { (committee : List ℕ) → Covers snapshot.now committee edges.old
        → IsBalanced snapshot.now committee asked result edges.old edges.new }
    ensures room { vec_capacity spans.new ≡ vec_capacity spans.old }
{
    if asked == 0 {
        return 0;
    }
    if !first_round(snapshot, edges, supports, spans) {
        return 1;
    }
    let mut made = 1;
    while made < asked {
        made += 1;
        if !next_round(snapshot, spans, edges, supports) {
            return made;
        }
    }
    made
}

/// Makes a first round, tells whether an amount changed, and notes the spans of all voters that have
/// two edges or more. A function by itself keeps what its loop needs in registers.
#[inline(never)]
fn first_round(
    snapshot: &Snapshot,
    edges: &mut [Edge],
    supports: &mut [u128],
    spans: &mut Vec<Span>,
) -> bool
    requires kept { AreKept supports.old edges.old }
    requires room { length snapshot.now.voters ≤ vec_capacity spans.old }
    ensures kept { AreKept supports.new edges.new }
    ensures count { length supports.new ≡ length supports.old }
    ensures alike { AreAlike edges.old edges.new }
    ensures changed { result ≡ differs (amounts edges.old) (amounts edges.new) }
    ensures round { (committee : List ℕ) → Covers snapshot.now committee edges.old
        → IsRound snapshot.now committee edges.old edges.new }
    ensures spans { AreSpans snapshot.now (length snapshot.now.voters) edges.new spans.new.items }
    ensures room { vec_capacity spans.new ≡ vec_capacity spans.old }
{
    spans.clear();
    let mut changed = false;
    let mut start = 0;
    for voter in 0..snapshot.voter_count() {
        let end = row_end(voter as u32, start, edges);
        note(voter as u32, start, end, spans);
        changed |= turn(
            snapshot.stake(voter as u32),
            &mut edges[start..end],
            supports,
        );
        start = end;
    }
    changed
}

/// Makes a round after a first one, and tells whether an amount changed. It makes the turns at voters
/// that have spans alone: all others are idle.
#[inline(never)]
fn next_round(
    snapshot: &Snapshot,
    spans: &[Span],
    edges: &mut [Edge],
    supports: &mut [u128],
) -> bool
    requires kept { AreKept supports.old edges.old }
    requires spans { AreSpans snapshot.now (length snapshot.now.voters) edges.old spans.now }
    ensures kept { AreKept supports.new edges.new }
    ensures count { length supports.new ≡ length supports.old }
    ensures alike { AreAlike edges.old edges.new }
    ensures changed { result ≡ differs (amounts edges.old) (amounts edges.new) }
    ensures round { (committee : List ℕ) → Covers snapshot.now committee edges.old
        → IsRound snapshot.now committee edges.old edges.new }
    ensures spans { AreSpans snapshot.now (length snapshot.now.voters) edges.new spans.now }
{
    let mut changed = false;
    for span in spans {
        changed |= turn(
            snapshot.stake(span.voter),
            &mut edges[span.start as usize..span.end as usize],
            supports,
        );
    }
    changed
}

/// Where the edges of the voter that begin at `start` end.
fn row_end(voter: u32, start: usize, edges: &[Edge]) -> usize
    requires { start ≤ length edges.now }
    ensures from { start ≤ result }
    ensures within { result ≤ length edges.now }
    ensures own { (k : ℕ) (d : Edge) → start ≤ k → k < result
        → (slice_index_or edges.now k d).voter ≡ voter }
    ensures next { (d : Edge) → result < length edges.now
        → (slice_index_or edges.now result d).voter ≢ voter }
{
    let mut end = start;
    while end < edges.len() && edges[end].voter == voter {
        end += 1;
    }
    end
}
