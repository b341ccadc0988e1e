//! Where the edges of those voters stand that have two or more. A voter without an edge has nothing
//! to hand out, and one with a single edge gives it all after its first turn: so later turns at
//! these change nothing.
ghost use Rattle.std.specs.Prelude.{◌≡◌, ◌+◌, ◌^◌, ◌<◌, ◌≤◌, ◌++◌, ◌∷◌, [], vec_len};
ghost use Rattle.std.specs.Vec.{vec_capacity};

/// The edges from `start` to `end`, which are those of the voter.
#[derive(Clone, Copy)]
pub(crate) struct Span {
    pub(crate) voter: u32,
    pub(crate) start: u32,
    pub(crate) end: u32,
}

/// Notes where the edges of the voter stand, if it has two or more.
pub(crate) fn note(voter: u32, start: usize, end: usize, spans: &mut Vec<Span>)
    requires room { vec_len spans.old < vec_capacity spans.old }
    requires ahead { start ≤ end }
    requires few { end ≤ 2 ^ 20 }
    ensures noted { start + 1 < end → spans.new.items ≡ spans.old.items
        ++ record { voter = voter; start = start; end = end } ∷ [] }
    ensures left_out { end ≤ start + 1 → spans.new.items ≡ spans.old.items }
    ensures more { vec_len spans.new ≤ vec_len spans.old + 1 }
    ensures room { vec_capacity spans.new ≡ vec_capacity spans.old }
{
    if end - start > 1 {
        spans.push_reserved(Span {
            voter,
            start: start as u32,
            end: end as u32,
        });
    }
}
