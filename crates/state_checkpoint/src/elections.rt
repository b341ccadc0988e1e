//! Snapshots, submissions and committees that wait, and slashes that do.
use crate::eras::BackerLayout;
use crate::limits::{
    MOST_EDGES, MOST_LINES, MOST_SEATS, MOST_SOLUTION_BYTES, MOST_TARGETS, MOST_VOTERS,
};
use era_book::DeferredSlash;
use npos_base::{List, NoMemory};
use scale_wire::fault::ReadFault;
use scale_wire::{
    Cursor, Layout, ListOf, Own, Pen, Wire, read_bytes, write_both_by, write_bytes, write_three_by,
};
use state_rules::{QueueRow, RoundRow, WaitingRow};
use std::alloc::Global;

type Targets = ListOf<Own, MOST_TARGETS>;

type Voters = ListOf<Own, MOST_VOTERS>;

pub(crate) struct RoundLayout;

impl Layout<RoundRow> for RoundLayout {
    ghost use Rattle.state_checkpoint.specs.Layout.{round_form};

    ghost form = { round_form };

    fn write(round: &RoundRow, pen: &mut Pen) -> Result<(), NoMemory> {
        write_both_by::<_, _, Targets, Voters>(&round.targets, &round.voters, pen)
    }

    fn read(alloc: Global, cursor: &mut Cursor<'_>) -> Result<RoundRow, ReadFault> {
        let (targets, voters) = <(Targets, Voters) as Layout<_>>::read(alloc, cursor)?;
        Ok(RoundRow { targets, voters })
    }
}

// The bytes of a submission.
struct SolutionLayout;

impl Layout<List<u8>> for SolutionLayout {
    ghost use Rattle.npos_base.specs.declared.limits.TheConstants.{MOST_SOLUTION_BYTES};
    ghost use Rattle.scale_wire.specs.Composite.{byte_list};

    ghost form = { byte_list MOST_SOLUTION_BYTES };

    fn write(bytes: &List<u8>, pen: &mut Pen) -> Result<(), NoMemory> {
        write_bytes(bytes, pen)
    }

    fn read(alloc: Global, cursor: &mut Cursor<'_>) -> Result<List<u8>, ReadFault> {
        read_bytes(alloc, cursor, MOST_SOLUTION_BYTES)
    }
}

pub(crate) struct QueuedLayout;

impl Layout<QueueRow> for QueuedLayout {
    ghost use Rattle.state_checkpoint.specs.Layout.{queued_form};

    ghost form = { queued_form };

    fn write(item: &QueueRow, pen: &mut Pen) -> Result<(), NoMemory> {
        let sender = (item.number, item.who);
        write_three_by::<_, _, _, Own, Own, SolutionLayout>(&sender, &item.score, &item.bytes, pen)
    }

    fn read(alloc: Global, cursor: &mut Cursor<'_>) -> Result<QueueRow, ReadFault> {
        let ((number, who), score, bytes) = <(Own, Own, SolutionLayout) as Layout<_>>::read(
            alloc, cursor,
        )?;
        Ok(QueueRow {
            number,
            who,
            score,
            bytes,
        })
    }
}

type Committee = ListOf<Own, MOST_SEATS>;

type Edges = ListOf<Own, MOST_EDGES>;

pub(crate) struct WaitingLayout;

impl Layout<WaitingRow> for WaitingLayout {
    ghost use Rattle.state_checkpoint.specs.Layout.{waiting_form};

    ghost form = { waiting_form };

    fn write(waiting: &WaitingRow, pen: &mut Pen) -> Result<(), NoMemory> {
        write_three_by::<_, _, _, RoundLayout, Committee, Edges>(
            &waiting.round,
            &waiting.committee,
            &waiting.edges,
            pen,
        )
    }

    fn read(alloc: Global, cursor: &mut Cursor<'_>) -> Result<WaitingRow, ReadFault> {
        let (round, committee, edges) = <(RoundLayout, Committee, Edges) as Layout<_>>::read(
            alloc, cursor,
        )?;
        Ok(WaitingRow {
            round,
            committee,
            edges,
        })
    }
}

type Lines = ListOf<BackerLayout, MOST_LINES>;

pub(crate) struct SlashLayout;

impl Layout<DeferredSlash> for SlashLayout {
    ghost use Rattle.state_checkpoint.specs.Layout.{slash_form};

    ghost form = { slash_form };

    fn write(slash: &DeferredSlash, pen: &mut Pen) -> Result<(), NoMemory> {
        write_three_by::<_, _, _, Own, Own, Lines>(&slash.number, &slash.due, &slash.lines, pen)
    }

    fn read(alloc: Global, cursor: &mut Cursor<'_>) -> Result<DeferredSlash, ReadFault> {
        let (number, due, lines) = <(Own, Own, Lines) as Layout<_>>::read(alloc, cursor)?;
        Ok(DeferredSlash { number, due, lines })
    }
}
