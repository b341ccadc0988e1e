//! Calls: what an account asks of the chain.
ghost use Rattle.std.specs.Prelude.{◌<◌};
ghost use Rattle.scale_wire.specs.Reading.{Reads, Writes};
ghost use Rattle.scale_wire.specs.Composite.{behind_tag};
ghost use Rattle.block_wire.specs.Calls.{kinds, kind_choice, kind_form};
ghost use Rattle.block_wire.specs.declared.limits.TheConstants.{KINDS};

use crate::limits::{KINDS, MOST_NAMED, MOST_POINTS, MOST_SOLUTION_BYTES};
use crate::writing::{write_listed, write_packed};
use npos_base::{AccountId, List, NoMemory, Score};
use scale_wire::fault::ReadFault;
use scale_wire::{BytesUpTo, Cursor, Pen, UpTo, Wire, write_both, write_fields};
use std::alloc::Global;

/// One call of a block, and the account that makes it.
#[derive(Debug, Drop)]
pub struct Call {
    pub who: AccountId,
    pub kind: CallKind,
}

impl Wire for Call {
    ghost use Rattle.block_wire.specs.Calls.{call_form};
    ghost use Rattle.block_wire.specs.CallLaws.{call_laws};

    ghost form = { call_form };

    ghost laws = { call_laws };

    fn write(&self, pen: &mut Pen) -> Result<(), NoMemory> {
        write_both(&self.who, &self.kind, pen)
    }

    fn read(alloc: Global, cursor: &mut Cursor<'_>) -> Result<Call, ReadFault> {
        let mut here = cursor.fork();
        let who = AccountId::read(alloc, &mut here)?;
        let kind = CallKind::read(alloc, &mut here)?;
        *cursor = here;
        Ok(Call { who, kind })
    }
}

/// What is asked, after the calls of Substrate's staking, bags list and election pallets. Amounts
/// are in units.
#[derive(Debug, Drop)]
pub enum CallKind {
    /// Moves free units to another account.
    Transfer {
        to: AccountId,
        value: u64,
    },
    /// Makes free units active, for an account that has none bonded.
    Bond {
        value: u64,
    },
    /// Makes more free units active.
    BondExtra {
        value: u64,
    },
    /// Lets active units go; they are free some eras later.
    Unbond {
        value: u64,
    },
    /// Makes units active again that were let go.
    Rebond {
        value: u64,
    },
    /// Frees the units that were let go and are due.
    Withdraw,
    /// Names the validators that the account votes for.
    Nominate {
        targets: List<AccountId>,
    },
    /// Offers the account as a validator, for a commission in parts of a billion.
    Validate {
        commission: u32,
    },
    /// Ends the account's role.
    Chill,
    /// Puts an account into the bag that its active stake belongs to.
    Rebag {
        whom: AccountId,
    },
    /// Stands directly before an account of the same bag with less active stake.
    PutInFront {
        lighter: AccountId,
    },
    /// Submits a solution of a round, with the score that it claims.
    Submit {
        round: u32,
        claim: Score,
        bytes: List<u8>,
    },
    /// Gives points to members of the current era; for the root alone.
    Points {
        items: List<(AccountId, u32)>,
    },
    /// Pays a validator and its backers for an era.
    Payout {
        era: u32,
        validator: AccountId,
    },
    /// Reports a member of an era, for a part of its exposure in parts of a billion; for the root
    /// alone.
    Offence {
        era: u32,
        validator: AccountId,
        fraction: u32,
    },
    /// Cancels a slash that waits, by its number; for the root alone.
    CancelSlash {
        number: u64,
    },
}

impl Wire for CallKind {
    ghost use Rattle.block_wire.specs.Calls.{kind_form};
    ghost use Rattle.block_wire.specs.CallLaws.{kind_laws};

    ghost form = { kind_form };

    ghost laws = { kind_laws };

    fn write(&self, pen: &mut Pen) -> Result<(), NoMemory> {
        write_kind(self, pen)
    }

    fn read(alloc: Global, cursor: &mut Cursor<'_>) -> Result<CallKind, ReadFault> {
        let mut here = cursor.fork();
        let tag = here.take_tag(KINDS)?;
        let kind = read_fields(alloc, tag, &mut here)?;
        *cursor = here;
        Ok(kind)
    }
}

// The tag and the fields.
fn write_kind(kind: &CallKind, pen: &mut Pen) -> Result<(), NoMemory>
    requires { kind_form.in_range kind.now }
    ensures { Writes (kind_form.spelling kind.now) pen.old result pen.new }
{
    match kind {
        CallKind::Transfer { to, value } => write_fields(0, &(*to, *value), pen),
        CallKind::Bond { value } => write_fields(1, value, pen),
        CallKind::BondExtra { value } => write_fields(2, value, pen),
        CallKind::Unbond { value } => write_fields(3, value, pen),
        CallKind::Rebond { value } => write_fields(4, value, pen),
        CallKind::Withdraw => write_fields(5, &(), pen),
        CallKind::Nominate { targets } => write_listed(6, targets, pen),
        CallKind::Validate { commission } => write_fields(7, commission, pen),
        CallKind::Chill => write_fields(8, &(), pen),
        CallKind::Rebag { whom } => write_fields(9, whom, pen),
        CallKind::PutInFront { lighter } => write_fields(10, lighter, pen),
        CallKind::Submit {
            round,
            claim,
            bytes,
        } => write_packed(11, &(*round, *claim), bytes, pen),
        CallKind::Points { items } => write_listed(12, items, pen),
        CallKind::Payout { era, validator } => write_fields(13, &(*era, *validator), pen),
        CallKind::Offence {
            era,
            validator,
            fraction,
        } => write_fields(14, &(*era, *validator, *fraction), pen),
        CallKind::CancelSlash { number } => write_fields(15, number, pen),
    }
}

// The fields of the kind with this number. Each kind has a function of its own, since a function
// clears the room of all its values where it begins, and an arm of its own to the end: where arms
// meet, or where this is part of what calls it, a call is put together again from the parts of all
// kinds, which takes longer than to read one.
#[inline(never)]
fn read_fields(alloc: Global, tag: u8, cursor: &mut Cursor<'_>) -> Result<CallKind, ReadFault>
    requires { tag < KINDS }
    ensures { Reads (behind_tag kinds kind_choice tag) cursor.old result cursor.new }
{
    match tag {
        0 => return read_transfer(alloc, cursor),
        1 => return read_bond(alloc, cursor),
        2 => return read_bond_extra(alloc, cursor),
        3 => return read_unbond(alloc, cursor),
        4 => return read_rebond(alloc, cursor),
        5 => return Ok(CallKind::Withdraw),
        6 => return read_nominate(alloc, cursor),
        7 => return read_validate(alloc, cursor),
        8 => return Ok(CallKind::Chill),
        9 => return read_rebag(alloc, cursor),
        10 => return read_put_in_front(alloc, cursor),
        11 => return read_submit(alloc, cursor),
        12 => return read_points(alloc, cursor),
        13 => return read_payout(alloc, cursor),
        14 => return read_offence(alloc, cursor),
        _ => return read_cancel_slash(alloc, cursor),
    }
}

// A stream has more of these than of all others. A pair would be copied once more.
fn read_transfer(alloc: Global, cursor: &mut Cursor<'_>) -> Result<CallKind, ReadFault>
    ensures { Reads (behind_tag kinds kind_choice 0) cursor.old result cursor.new }
{
    let mut here = cursor.fork();
    let to = AccountId::read(alloc, &mut here)?;
    let value = u64::read(alloc, &mut here)?;
    *cursor = here;
    Ok(CallKind::Transfer { to, value })
}

fn read_bond(alloc: Global, cursor: &mut Cursor<'_>) -> Result<CallKind, ReadFault>
    ensures { Reads (behind_tag kinds kind_choice 1) cursor.old result cursor.new }
{
    let value = u64::read(alloc, cursor)?;
    Ok(CallKind::Bond { value })
}

fn read_bond_extra(alloc: Global, cursor: &mut Cursor<'_>) -> Result<CallKind, ReadFault>
    ensures { Reads (behind_tag kinds kind_choice 2) cursor.old result cursor.new }
{
    let value = u64::read(alloc, cursor)?;
    Ok(CallKind::BondExtra { value })
}

fn read_unbond(alloc: Global, cursor: &mut Cursor<'_>) -> Result<CallKind, ReadFault>
    ensures { Reads (behind_tag kinds kind_choice 3) cursor.old result cursor.new }
{
    let value = u64::read(alloc, cursor)?;
    Ok(CallKind::Unbond { value })
}

fn read_rebond(alloc: Global, cursor: &mut Cursor<'_>) -> Result<CallKind, ReadFault>
    ensures { Reads (behind_tag kinds kind_choice 4) cursor.old result cursor.new }
{
    let value = u64::read(alloc, cursor)?;
    Ok(CallKind::Rebond { value })
}

fn read_nominate(alloc: Global, cursor: &mut Cursor<'_>) -> Result<CallKind, ReadFault>
    ensures { Reads (behind_tag kinds kind_choice 6) cursor.old result cursor.new }
{
    let targets = <UpTo<AccountId, MOST_NAMED>>::read(alloc, cursor)?.into_list();
    Ok(CallKind::Nominate { targets })
}

fn read_validate(alloc: Global, cursor: &mut Cursor<'_>) -> Result<CallKind, ReadFault>
    ensures { Reads (behind_tag kinds kind_choice 7) cursor.old result cursor.new }
{
    let commission = u32::read(alloc, cursor)?;
    Ok(CallKind::Validate { commission })
}

fn read_rebag(alloc: Global, cursor: &mut Cursor<'_>) -> Result<CallKind, ReadFault>
    ensures { Reads (behind_tag kinds kind_choice 9) cursor.old result cursor.new }
{
    let whom = AccountId::read(alloc, cursor)?;
    Ok(CallKind::Rebag { whom })
}

fn read_put_in_front(alloc: Global, cursor: &mut Cursor<'_>) -> Result<CallKind, ReadFault>
    ensures { Reads (behind_tag kinds kind_choice 10) cursor.old result cursor.new }
{
    let lighter = AccountId::read(alloc, cursor)?;
    Ok(CallKind::PutInFront { lighter })
}

fn read_submit(alloc: Global, cursor: &mut Cursor<'_>) -> Result<CallKind, ReadFault>
    ensures { Reads (behind_tag kinds kind_choice 11) cursor.old result cursor.new }
{
    let (round, claim, bytes) = <(u32, Score, Solution)>::read(alloc, cursor)?;
    let bytes = bytes.into_list();
    Ok(CallKind::Submit {
        round,
        claim,
        bytes,
    })
}

fn read_points(alloc: Global, cursor: &mut Cursor<'_>) -> Result<CallKind, ReadFault>
    ensures { Reads (behind_tag kinds kind_choice 12) cursor.old result cursor.new }
{
    let items = <UpTo<(AccountId, u32), MOST_POINTS>>::read(alloc, cursor)?.into_list();
    Ok(CallKind::Points { items })
}

fn read_payout(alloc: Global, cursor: &mut Cursor<'_>) -> Result<CallKind, ReadFault>
    ensures { Reads (behind_tag kinds kind_choice 13) cursor.old result cursor.new }
{
    let (era, validator) = <(u32, AccountId)>::read(alloc, cursor)?;
    Ok(CallKind::Payout { era, validator })
}

fn read_offence(alloc: Global, cursor: &mut Cursor<'_>) -> Result<CallKind, ReadFault>
    ensures { Reads (behind_tag kinds kind_choice 14) cursor.old result cursor.new }
{
    let (era, validator, fraction) = <(u32, AccountId, u32)>::read(alloc, cursor)?;
    Ok(CallKind::Offence {
        era,
        validator,
        fraction,
    })
}

fn read_cancel_slash(alloc: Global, cursor: &mut Cursor<'_>) -> Result<CallKind, ReadFault>
    ensures { Reads (behind_tag kinds kind_choice 15) cursor.old result cursor.new }
{
    let number = u64::read(alloc, cursor)?;
    Ok(CallKind::CancelSlash { number })
}

type Solution = BytesUpTo<MOST_SOLUTION_BYTES>;
