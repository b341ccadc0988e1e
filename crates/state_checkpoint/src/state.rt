//! The state of a chain, as bytes.
ghost use Rattle.std.specs.Prelude.{◌≡◌, ◌<◌};
ghost use Rattle.std.specs.Result.{IfOk};
ghost use Rattle.scale_wire.specs.Reading.{Reads, Writes};
ghost use Rattle.scale_wire.specs.Composite.{behind_tag};
ghost use Rattle.state_checkpoint.specs.Layout.{head_form, head_of, runs_form, runs_of, waits_form, waits_of, tail_form, tail_of, parts_form, parts_of, states, state_choice, state_form};

use crate::book::RowLayout;
use crate::elections::{QueuedLayout, RoundLayout, SlashLayout, WaitingLayout};
use crate::eras::EraLayout;
use crate::limits::{MOST_QUEUED, MOST_SLASHES};
use crate::roles::RoleLayout;
use npos_base::{List, NoMemory};
use scale_wire::fault::ReadFault;
use scale_wire::{
    Cursor, Layout, ListOf, OptionOf, Own, Pen, RunOf, Wire, write_both_by, write_tag,
    write_three_by,
};
use state_rules::State;
use std::alloc::Global;

type Rows = RunOf<RowLayout>;

type Roles = RunOf<RoleLayout>;

type Eras = RunOf<EraLayout>;

type Round = OptionOf<RoundLayout>;

type Queue = ListOf<QueuedLayout, MOST_QUEUED>;

type Waiting = OptionOf<WaitingLayout>;

type Slashes = ListOf<SlashLayout, MOST_SLASHES>;

// The params with the eras that a slash waits, the due block, and the sums.
type Head = (Own, Own, Own);

type Runs = (Rows, Roles, Eras);

// The round and the submissions, and then the committee and the slashes that wait. What is queued
// stands behind the next number.
type Tail = (Round, (Own, Queue), (Waiting, (Own, Slashes)));

/// The layout of a state.
pub struct StateLayout;

impl Layout<State> for StateLayout {
    ghost use Rattle.state_checkpoint.specs.Layout.{state_form};

    ghost form = { state_form };

    fn write(state: &State, pen: &mut Pen) -> Result<(), NoMemory> {
        write_whole(state, pen)
    }

    fn read(alloc: Global, cursor: &mut Cursor<'_>) -> Result<State, ReadFault> {
        read_state(alloc, cursor)
    }
}

/// The bytes of a state.
pub fn write_state(alloc: Global, state: &State) -> Result<List<u8>, NoMemory>
    requires { state_form.in_range state.now }
    ensures { IfOk result (λ bytes. bytes ≡ state_form.spelling state.now) }
{
    let mut pen = Pen::new(alloc);
    write_whole(state, &mut pen)?;
    Ok(pen.finish())
}

/// Reads a state at the cursor's place and moves the cursor behind it, or refuses the bytes there.
/// The time is linear in the bytes.
pub fn read_state(alloc: Global, cursor: &mut Cursor<'_>) -> Result<State, ReadFault>
    ensures { Reads state_form cursor.old result cursor.new }
{
    let mut here = cursor.fork();
    let tag = here.take_tag(1)?;
    let state = read_parts(alloc, tag, &mut here)?;
    *cursor = here;
    Ok(state)
}

// The tag and then all parts.
#[tactic(auto, using(scale_wire::proofs::ReadLemmas::writes_behind))]
fn write_whole(state: &State, pen: &mut Pen) -> Result<(), NoMemory>
    requires { state_form.in_range state.now }
    ensures { Writes (state_form.spelling state.now) pen.old result pen.new }
{
    write_tag(0, pen)?;
    write_parts(state, pen)
}

// The parts, one behind the other.
fn write_parts(state: &State, pen: &mut Pen) -> Result<(), NoMemory>
    requires { parts_form.in_range (parts_of state.now) }
    ensures { Writes (parts_form.spelling (parts_of state.now)) pen.old result pen.new }
{
    write_head(state, pen)?;
    write_runs(state, pen)?;
    write_tail(state, pen)
}

fn write_head(state: &State, pen: &mut Pen) -> Result<(), NoMemory>
    requires { head_form.in_range (head_of state.now) }
    ensures { Writes (head_form.spelling (head_of state.now)) pen.old result pen.new }
{
    let sums = (state.genesis, state.minted, state.burned);
    write_three_by::<_, _, _, Own, Own, Own>(&state.params, &state.due, &sums, pen)
}

fn write_runs(state: &State, pen: &mut Pen) -> Result<(), NoMemory>
    requires { runs_form.in_range (runs_of state.now) }
    ensures { Writes (runs_form.spelling (runs_of state.now)) pen.old result pen.new }
{
    write_three_by::<_, _, _, Rows, Roles, Eras>(&state.rows, &state.roles, &state.eras, pen)
}

fn write_tail(state: &State, pen: &mut Pen) -> Result<(), NoMemory>
    requires { tail_form.in_range (tail_of state.now) }
    ensures { Writes (tail_form.spelling (tail_of state.now)) pen.old result pen.new }
{
    <Round as Layout<_>>::write(&state.round, pen)?;
    write_both_by::<_, _, Own, Queue>(&state.next_submission, &state.queue, pen)?;
    write_waits(state, pen)
}

// The committee that waits, and the slashes that do.
#[tactic(auto, using(scale_wire::proofs::ReadLemmas::front_more, scale_wire::proofs::ReadLemmas::writes_behind))]
fn write_waits(state: &State, pen: &mut Pen) -> Result<(), NoMemory>
    requires { waits_form.in_range (waits_of state.now) }
    ensures { Writes (waits_form.spelling (waits_of state.now)) pen.old result pen.new }
{
    <Waiting as Layout<_>>::write(&state.waiting, pen)?;
    write_both_by::<_, _, Own, Slashes>(&state.next_slash, &state.slashes, pen)
}

// What stands behind the tag.
fn read_parts(alloc: Global, tag: u8, cursor: &mut Cursor<'_>) -> Result<State, ReadFault>
    requires { tag < 1 }
    ensures { Reads (behind_tag states state_choice tag) cursor.old result cursor.new }
{
    let (head, runs, tail) = <(Head, Runs, Tail) as Layout<_>>::read(alloc, cursor)?;
    let (params, due, (genesis, minted, burned)) = head;
    let (rows, roles, eras) = runs;
    let (round, (next_submission, queue), (waiting, (next_slash, slashes))) = tail;
    Ok(State {
        params,
        due,
        genesis,
        minted,
        burned,
        rows,
        roles,
        eras,
        round,
        next_submission,
        queue,
        waiting,
        next_slash,
        slashes,
    })
}
