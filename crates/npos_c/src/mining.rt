//! What the miners make of a bundle.
ghost use Rattle.std.specs.Prelude.{◌≡◌, IfOk};
ghost use Rattle.npos_base.specs.Miner.{numbered, HasRounds};
ghost use Rattle.election_work.specs.declared.asked.Task.TheVariants as tasks;
ghost use Rattle.election_work.specs.Mining.{due_of, IsBundleMining, IsYes};
ghost use Rattle.election_work.specs.Sound.{IsSound};
ghost use Rattle.npos_c.specs.Mining.{hand_of, IsHandedFor, IsSoundFor};

use crate::mined::{NposMined, hand_out};
use crate::numbers::{NO_MEMORY, UNKNOWN};
use election_work::{Finding, Mining, Reading, mine_election, read_election};
use npos_base::{Miner, NoMemory};
use std::alloc::Global;

/// What a miner makes of the election in the bytes of a bundle.
fn mine_bytes(alloc: Global, bytes: &[u8], miner: Miner) -> Result<Mining, NoMemory>
    requires { HasRounds miner }
    ensures mining { IfOk result (λ mining. IsBundleMining miner bytes.now (due_of mining)) }
    ensures sound { IfOk result (λ mining. IsYes (due_of mining)
        → IsSound (tasks.Mine miner) bytes.now) }
{
    match read_election(alloc, bytes)? {
        Reading::Stands(election) => mine_election(alloc, election, miner),
        Reading::Refused(why) => Ok(Mining::Refused(Finding::Unread(why))),
    }
}

/// What a miner makes of the election of a bundle in SCALE, whose work is not looked at. The miner
/// is 1 for the fill, 2 for seq and 3 for mms; the rounds are those of mms, from 1 to 100, and else
/// are not looked at. The members of the committee go by rising position to the front of
/// `committee`, and the bytes of the packed solution to the front of `solution`; the fill is not
/// packed and has none. The rest goes to `mined`. The answer is 0 where the verdict on what was
/// mined is Yes, 1 where it is another one or a member is lost, 3 where the bundle has a fault, and
/// 8 where a buffer is too small: then both stay as they are, and `mined` tells what sizes they
/// need. It is 2 where there is no such miner and 6 where memory was refused, and then nothing is
/// written.
#[unsafe(no_mangle)]
pub extern "C" fn npos_c_mine(
    alloc: Global,
    miner: u32,
    rounds: u32,
    bundle: &[u8],
    committee: &mut [u16],
    solution: &mut [u8],
    mined: &mut NposMined,
) -> u32
    ensures mined { IsHandedFor (numbered miner rounds) bundle.now
        (hand_of committee.old solution.old mined.old)
        (hand_of committee.new solution.new mined.new) result }
    ensures sound { result ≡ 0 → IsSoundFor (numbered miner rounds) bundle.now }
{
    match Miner::numbered(miner, rounds) {
        Some(asked) => match mine_bytes(alloc, bundle, asked) {
            Ok(mining) => hand_out(&mining, committee, solution, mined),
            Err(NoMemory) => NO_MEMORY,
        },
        None => UNKNOWN,
    }
}
