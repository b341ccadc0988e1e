//! Eras, their members and who backs them.
use crate::limits::{MOST_BACKERS, MOST_MEMBERS};
use era_book::Backer;
use npos_base::{AccountId, NoMemory};
use scale_wire::fault::ReadFault;
use scale_wire::{
    Cursor, Layout, ListOf, Own, Pen, Wire, write_both, write_both_by, write_three_by,
};
use state_rules::{EraRow, MemberRow};
use std::alloc::Global;

pub(crate) struct BackerLayout;

impl Layout<Backer> for BackerLayout {
    ghost use Rattle.state_checkpoint.specs.Layout.{backer_form};

    ghost form = { backer_form };

    fn write(backer: &Backer, pen: &mut Pen) -> Result<(), NoMemory> {
        write_both(&backer.who, &backer.amount, pen)
    }

    fn read(alloc: Global, cursor: &mut Cursor<'_>) -> Result<Backer, ReadFault> {
        let (who, amount) = <(AccountId, u64)>::read(alloc, cursor)?;
        Ok(Backer { who, amount })
    }
}

type Backers = ListOf<BackerLayout, MOST_BACKERS>;

pub(crate) struct MemberLayout;

impl Layout<MemberRow> for MemberLayout {
    ghost use Rattle.state_checkpoint.specs.Layout.{member_form};

    ghost form = { member_form };

    fn write(member: &MemberRow, pen: &mut Pen) -> Result<(), NoMemory> {
        let terms = (member.who, member.commission);
        let deeds = (member.points, member.claimed, member.fraction);
        write_three_by::<_, _, _, Own, Backers, Own>(&terms, &member.backers, &deeds, pen)
    }

    fn read(alloc: Global, cursor: &mut Cursor<'_>) -> Result<MemberRow, ReadFault> {
        let (terms, backers, deeds) = <(Own, Backers, Own) as Layout<_>>::read(alloc, cursor)?;
        let (who, commission) = terms;
        let (points, claimed, fraction) = deeds;
        Ok(MemberRow {
            who,
            commission,
            backers,
            points,
            claimed,
            fraction,
        })
    }
}

type Members = ListOf<MemberLayout, MOST_MEMBERS>;

pub(crate) struct EraLayout;

impl Layout<EraRow> for EraLayout {
    ghost use Rattle.state_checkpoint.specs.Layout.{era_form};

    ghost form = { era_form };

    fn write(era: &EraRow, pen: &mut Pen) -> Result<(), NoMemory> {
        write_both_by::<_, _, Own, Members>(&era.era, &era.members, pen)
    }

    fn read(alloc: Global, cursor: &mut Cursor<'_>) -> Result<EraRow, ReadFault> {
        let (era, members) = <(Own, Members) as Layout<_>>::read(alloc, cursor)?;
        Ok(EraRow { era, members })
    }
}
