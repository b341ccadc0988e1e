//! What is read of a pool: how it begins, and what is asked of it.
ghost use Rattle.std.specs.Prelude.{◌<◌, length};
ghost use Rattle.scale_wire.specs.Reading.{Reads, Writes};
ghost use Rattle.scale_wire.specs.Composite.{behind_tag};
ghost use Rattle.stake_pools.specs.Input.{kinds, kind_choice, kind_form};

use npos_base::{AccountId, List, MOST_ENDOWMENTS, NoMemory};
use scale_wire::fault::ReadFault;
use scale_wire::{Cursor, Pen, UpTo, Wire, write_both, write_fields, write_list};
use std::alloc::Global;

/// How a pool begins: who owns what, which account is the pool's, and for how long units that leave
/// stay.
#[derive(Debug, Drop)]
pub struct PoolGenesis {
    /// Accounts and the units that they have at the beginning, free.
    pub endowments: List<(AccountId, u64)>,
    /// The account that members share.
    pub pool: AccountId,
    /// How many eras pass before points that were given up are paid out.
    pub bonding_eras: u32,
}

type Endowments = UpTo<(AccountId, u64), MOST_ENDOWMENTS>;

impl Wire for PoolGenesis {
    ghost use Rattle.stake_pools.specs.Input.{pool_genesis_form};
    ghost use Rattle.stake_pools.specs.InputLaws.{pool_genesis_laws};

    ghost form = { pool_genesis_form };

    ghost laws = { pool_genesis_laws };

    fn write(&self, pen: &mut Pen) -> Result<(), NoMemory> {
        write_list(&self.endowments, pen)?;
        write_both(&self.pool, &self.bonding_eras, pen)
    }

    fn read(alloc: Global, cursor: &mut Cursor<'_>) -> Result<PoolGenesis, ReadFault> {
        let (endowments, pool, bonding_eras) = <(Endowments, AccountId, u32)>::read(alloc, cursor)?;
        Ok(PoolGenesis {
            endowments: endowments.into_list(),
            pool,
            bonding_eras,
        })
    }
}

/// What is asked of a pool, after the calls of Substrate's nomination pools.
#[derive(Clone, Copy, Debug, PartialEq, Eq)]
pub enum PoolKind {
    /// Gives free units to the pool, for points.
    Join { value: u64 },
    /// Gives points up; they are paid out some eras later.
    Leave { points: u64 },
    /// Pays out the points that were given up and are due.
    Redeem,
    /// Gives free units to those who stay in the pool.
    Reward { value: u64 },
    /// Pays out what the account was given as its part of rewards.
    Claim,
    /// Burns units of the pool; for the pool's account alone.
    Slash { amount: u64 },
    /// Begins the next era; for the pool's account alone.
    NextEra,
}

/// Kinds of item.
const KINDS: u8 = 7;

impl Wire for PoolKind {
    ghost use Rattle.stake_pools.specs.Input.{kind_form};
    ghost use Rattle.stake_pools.specs.InputLaws.{kind_laws};

    ghost form = { kind_form };

    ghost laws = { kind_laws };

    fn write(&self, pen: &mut Pen) -> Result<(), NoMemory> {
        match self {
            PoolKind::Join { value } => write_fields(0, value, pen),
            PoolKind::Leave { points } => write_fields(1, points, pen),
            PoolKind::Redeem => write_fields(2, &(), pen),
            PoolKind::Reward { value } => write_fields(3, value, pen),
            PoolKind::Claim => write_fields(4, &(), pen),
            PoolKind::Slash { amount } => write_fields(5, amount, pen),
            PoolKind::NextEra => write_fields(6, &(), pen),
        }
    }

    fn read(_alloc: Global, cursor: &mut Cursor<'_>) -> Result<PoolKind, ReadFault> {
        let mut here = cursor.fork();
        let tag = here.take_tag(KINDS)?;
        let kind = read_fields(tag, &mut here)?;
        *cursor = here;
        Ok(kind)
    }
}

// The field of the kind with this number, if it has one.
fn read_fields(tag: u8, cursor: &mut Cursor<'_>) -> Result<PoolKind, ReadFault>
    requires { tag < 7 }
    ensures { Reads (behind_tag kinds kind_choice tag) cursor.old result cursor.new }
{
    let kind = match tag {
        0 => PoolKind::Join {
            value: cursor.take_compact_u64()?,
        },
        1 => PoolKind::Leave {
            points: cursor.take_compact_u64()?,
        },
        2 => PoolKind::Redeem,
        3 => PoolKind::Reward {
            value: cursor.take_compact_u64()?,
        },
        4 => PoolKind::Claim,
        5 => PoolKind::Slash {
            amount: cursor.take_compact_u64()?,
        },
        _ => PoolKind::NextEra,
    };
    Ok(kind)
}

/// One item of the input: who asks, and what.
#[derive(Clone, Copy, Debug, PartialEq, Eq)]
pub struct PoolItem {
    pub who: AccountId,
    pub kind: PoolKind,
}

impl Wire for PoolItem {
    ghost use Rattle.stake_pools.specs.Input.{item_form};
    ghost use Rattle.stake_pools.specs.InputLaws.{item_laws};

    ghost form = { item_form };

    ghost laws = { item_laws };

    fn write(&self, pen: &mut Pen) -> Result<(), NoMemory> {
        write_both(&self.who, &self.kind, pen)
    }

    fn read(alloc: Global, cursor: &mut Cursor<'_>) -> Result<PoolItem, ReadFault> {
        let (who, kind) = <(AccountId, PoolKind)>::read(alloc, cursor)?;
        Ok(PoolItem { who, kind })
    }
}
