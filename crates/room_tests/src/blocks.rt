use block_wire::{Block, Bundle, CallKind, Endowment, Genesis, Next, Params, StreamReader, laws};
use npos_base::{AccountId, List, NoMemory};
use scale_wire::fault::{ReadFault, Why, WireFault};
use scale_wire::{Pen, Wire, read_whole};
use std::alloc::Global;
use std::test::Fail;

fn account(n: u128) -> AccountId {
    AccountId { hi: 0, lo: n }
}

// A block with two transfers of account 1 to account 2, of 40 and of 61 units, as the stream has
// it.
static BLOCK: [u8; 135] = [
    0x01, 0x04, 0x08, // Some, block 1, two calls
    0, 0, 0, 0, 0, 0, 0, 0, 0, 0, 0, 0, 0, 0, 0, 0, 0, 0, 0, 0, 0, 0, 0, 0, 0, 0, 0, 0, 0, 0, 0,
    0x01, // who
    0, // Transfer
    0, 0, 0, 0, 0, 0, 0, 0, 0, 0, 0, 0, 0, 0, 0, 0, 0, 0, 0, 0, 0, 0, 0, 0, 0, 0, 0, 0, 0, 0, 0,
    0x02, // to
    0xa0, // 40
    0, 0, 0, 0, 0, 0, 0, 0, 0, 0, 0, 0, 0, 0, 0, 0, 0, 0, 0, 0, 0, 0, 0, 0, 0, 0, 0, 0, 0, 0, 0,
    0x01, // who
    0, // Transfer
    0, 0, 0, 0, 0, 0, 0, 0, 0, 0, 0, 0, 0, 0, 0, 0, 0, 0, 0, 0, 0, 0, 0, 0, 0, 0, 0, 0, 0, 0, 0,
    0x02, // to
    0xf4, // 61
];

// Account 1 has 100 units and account 2 has none.
const PLAIN: [u8; 69] = [
    0, 0x08, // Plain, two endowments
    0, 0, 0, 0, 0, 0, 0, 0, 0, 0, 0, 0, 0, 0, 0, 0, 0, 0, 0, 0, 0, 0, 0, 0, 0, 0, 0, 0, 0, 0, 0,
    0x01, 0x91, 0x01, // 100
    0, 0, 0, 0, 0, 0, 0, 0, 0, 0, 0, 0, 0, 0, 0, 0, 0, 0, 0, 0, 0, 0, 0, 0, 0, 0, 0, 0, 0, 0, 0,
    0x02, 0, // 0
];

const ENDOWMENTS: [Endowment; 2] = [
    Endowment {
        who: AccountId { hi: 0, lo: 1 },
        value: 100,
    },
    Endowment {
        who: AccountId { hi: 0, lo: 2 },
        value: 0,
    },
];

const FULL: [u8; 82] = [
    0x01, 0x04, // Full, one endowment
    0, 0, 0, 0, 0, 0, 0, 0, 0, 0, 0, 0, 0, 0, 0, 0, 0, 0, 0, 0, 0, 0, 0, 0, 0, 0, 0, 0, 0, 0, 0,
    0x01, 0x04, // 1
    0, 0, 0, 0, 0, 0, 0, 0, 0, 0, 0, 0, 0, 0, 0, 0, 0, 0, 0, 0, 0, 0, 0, 0, 0, 0, 0, 0, 0, 0, 0,
    0x07, // root
    0x08, 0x50, 0x08, 0x0c, 0x10, 0x04, // seats 2, eras of 20 blocks, offset 2, signed 3, bonding eras 4, least bond 1
    0x08, 0x28, 0x91, 0x01, // the thresholds 10 and 100
    0x14, 0x18, 0x1c, 0x20, 0x24, // queue 5, solutions of 6 bytes, deposit 7, reward 8, era reward 9
];

// The same where a slash waits three eras.
const DEFERRED: [u8; 83] = [
    0x02, 0x04, // Deferred, one endowment
    0, 0, 0, 0, 0, 0, 0, 0, 0, 0, 0, 0, 0, 0, 0, 0, 0, 0, 0, 0, 0, 0, 0, 0, 0, 0, 0, 0, 0, 0, 0,
    0x01, 0x04, // 1
    0, 0, 0, 0, 0, 0, 0, 0, 0, 0, 0, 0, 0, 0, 0, 0, 0, 0, 0, 0, 0, 0, 0, 0, 0, 0, 0, 0, 0, 0, 0,
    0x07, // root
    0x08, 0x50, 0x08, 0x0c, 0x10, 0x04, // seats 2, eras of 20 blocks, offset 2, signed 3, bonding eras 4, least bond 1
    0x08, 0x28, 0x91, 0x01, // the thresholds 10 and 100
    0x14, 0x18, 0x1c, 0x20, 0x24, // queue 5, solutions of 6 bytes, deposit 7, reward 8, era reward 9
    0x0c, // slashes wait 3 eras
];

// Bytes that are refused as a whole genesis, the place and the reason.
static REFUSED: [(&[u8], u64, Why); 6] = [
    (&[], 0, Why::Short),
    (&[0x09], 0, Why::BadTag),
    (&[0x03], 0, Why::BadTag),
    (&[0x00, 0x06, 0x00, 0x04, 0x00], 1, Why::TooMany),
    (&[0x00, 0x04, 0, 0, 0], 2, Why::Short),
    (&[0x00, 0x00, 0xff], 2, Why::Trailing),
];

// One call of each kind: its tag and its fields.
static KINDS: [&[u8]; 16] = [
    &[
        0, 0, 0, 0, 0, 0, 0, 0, 0, 0, 0, 0, 0, 0, 0, 0, 0, 0, 0, 0, 0, 0, 0, 0, 0, 0, 0, 0, 0, 0,
        0, 0, 0x02, 0xa0,
    ],
    &[0x01, 0xfc],
    &[0x02, 0x01, 0x01],
    &[0x03, 0xfd, 0xff],
    &[0x04, 0x02, 0, 0x01, 0],
    &[0x05],
    &[
        0x06, 0x08, 0, 0, 0, 0, 0, 0, 0, 0, 0, 0, 0, 0, 0, 0, 0, 0, 0, 0, 0, 0, 0, 0, 0, 0, 0, 0,
        0, 0, 0, 0, 0, 0x01, 0, 0, 0, 0, 0, 0, 0, 0, 0, 0, 0, 0, 0, 0, 0, 0, 0, 0, 0, 0, 0, 0, 0,
        0, 0, 0, 0, 0, 0, 0, 0, 0x02,
    ],
    &[0x07, 0x02, 0x28, 0x6b, 0xee],
    &[0x08],
    &[
        0x09, 0, 0, 0, 0, 0, 0, 0, 0, 0, 0, 0, 0, 0, 0, 0, 0, 0, 0, 0, 0, 0, 0, 0, 0, 0, 0, 0, 0,
        0, 0, 0, 0x03,
    ],
    &[
        0x0a, 0, 0, 0, 0, 0, 0, 0, 0, 0, 0, 0, 0, 0, 0, 0, 0, 0, 0, 0, 0, 0, 0, 0, 0, 0, 0, 0, 0,
        0, 0, 0, 0x04,
    ],
    &[
        0x0b, 0x04, 0xa0, 0x91, 0x01, 0x50, 0x14, 0, 0, 0, 0, 0, 0, 0, 0, 0, 0, 0, 0, 0, 0, 0x08,
        0xaa, 0xbb,
    ],
    &[
        0x0c, 0x08, 0, 0, 0, 0, 0, 0, 0, 0, 0, 0, 0, 0, 0, 0, 0, 0, 0, 0, 0, 0, 0, 0, 0, 0, 0, 0,
        0, 0, 0, 0, 0, 0x01, 0x04, 0, 0, 0, 0, 0, 0, 0, 0, 0, 0, 0, 0, 0, 0, 0, 0, 0, 0, 0, 0, 0,
        0, 0, 0, 0, 0, 0, 0, 0, 0, 0, 0x02, 0x08,
    ],
    &[
        0x0d, 0x04, 0, 0, 0, 0, 0, 0, 0, 0, 0, 0, 0, 0, 0, 0, 0, 0, 0, 0, 0, 0, 0, 0, 0, 0, 0, 0,
        0, 0, 0, 0, 0, 0x05,
    ],
    &[
        0x0e, 0x04, 0, 0, 0, 0, 0, 0, 0, 0, 0, 0, 0, 0, 0, 0, 0, 0, 0, 0, 0, 0, 0, 0, 0, 0, 0, 0,
        0, 0, 0, 0, 0, 0x06, 0x08,
    ],
    &[0x0f, 0x02, 0x28, 0x6b, 0xee],
];

// What is written again of a value that is the whole of the bytes.
fn rewritten<T: Wire>(alloc: Global, bytes: &[u8]) -> Result<List<u8>, ReadFault> {
    let value = read_whole::<T>(alloc, bytes)?;
    let mut pen = Pen::new(alloc);
    value.write(&mut pen)?;
    Ok(pen.finish())
}

#[test]
fn what_is_read_is_written_again(rt: HostRuntime) -> Result<(), Fail> {
    for &bytes in &KINDS {
        assert_eq!(rt; rewritten::<CallKind>(rt.alloc(), bytes)?.as_slice(), bytes);
    }
    for bytes in [PACKED.as_slice(), PLAIN_WORK.as_slice()] {
        assert_eq!(rt; rewritten::<Bundle>(rt.alloc(), bytes)?.as_slice(), bytes);
    }
    for bytes in [PLAIN.as_slice(), FULL.as_slice(), DEFERRED.as_slice()] {
        assert_eq!(rt; rewritten::<Genesis>(rt.alloc(), bytes)?.as_slice(), bytes);
    }
    let block = rewritten::<Option<Block>>(rt.alloc(), &BLOCK)?;
    assert_eq!(rt; block.as_slice(), BLOCK.as_slice());
    Ok(())
}

#[test]
fn a_block_of_two_transfers(rt: HostRuntime) -> Result<(), Fail> {
    let block = read_whole::<Option<Block>>(rt.alloc(), &BLOCK)?.ok_or("no block")?;
    for (call, value) in block.calls.as_slice().iter().zip([40, 61]) {
        assert_eq!(rt;
            (block.number, call.who, transfer_of(&call.kind)),
            (1, account(1), Some((account(2), value)))
        );
    }
    Ok(())
}

/// A block with so many withdrawals of account 1, as the stream has it.
fn withdrawals(alloc: Global, count: u64) -> Result<List<u8>, NoMemory> {
    let mut pen = Pen::new(alloc);
    pen.put_bytes(&[0x01, 0x04])?;
    pen.put_compact(count)?;
    for _ in 0..count {
        pen.put_account(account(1))?;
        pen.put_u8(5)?;
    }
    Ok(pen.finish())
}

#[test]
fn a_block_has_64_calls(rt: HostRuntime) -> Result<(), Fail> {
    let most = withdrawals(rt.alloc(), 64)?;
    let again = rewritten::<Option<Block>>(rt.alloc(), most.as_slice())?;
    assert_eq!(rt; again.as_slice(), most.as_slice());
    let more = withdrawals(rt.alloc(), 65)?;
    let fault = match read_whole::<Option<Block>>(rt.alloc(), more.as_slice()) {
        Err(ReadFault::Wire(fault)) => Some(fault),
        _ => None,
    };
    let why = Why::TooMany;
    assert_eq!(rt; fault, Some(WireFault { at: 2, why }));
    Ok(())
}

fn transfer_of(kind: &CallKind) -> Option<(AccountId, u64)> {
    match kind {
        CallKind::Transfer { to, value } => Some((*to, *value)),
        _ => None,
    }
}

#[test]
fn a_genesis_by_its_fields(rt: HostRuntime) -> Result<(), Fail> {
    let (endowments, none, _) = fields_of(read_whole::<Genesis>(rt.alloc(), &PLAIN)?);
    assert_eq!(rt;
        (endowments.as_slice(), none.is_none()),
        (ENDOWMENTS.as_slice(), true)
    );
    for (bytes, eras) in [(FULL.as_slice(), None), (DEFERRED.as_slice(), Some(3))] {
        let (_, params, defer_eras) = fields_of(read_whole::<Genesis>(rt.alloc(), bytes)?);
        let params = params.ok_or("not full")?;
        assert_eq!(rt; (params.root, figures_of(&params)), (account(7), FIGURES));
        assert_eq!(rt; params.thresholds.as_slice(), [10, 100].as_slice());
        assert_eq!(rt; defer_eras, eras);
    }
    Ok(())
}

fn fields_of(genesis: Genesis) -> (List<Endowment>, Option<Params>, Option<u32>) {
    match genesis {
        Genesis::Plain { endowments } => (endowments, None, None),
        Genesis::Full { endowments, params } => (endowments, Some(params), None),
        Genesis::Deferred {
            endowments,
            params,
            defer_eras,
        } => (endowments, Some(params), Some(defer_eras)),
    }
}

// The seats, the phases, bonding, submissions, and what is paid.
static FIGURES: [u64; 11] = [2, 20, 2, 3, 4, 1, 5, 6, 7, 8, 9];

fn figures_of(params: &Params) -> [u64; 11] {
    [
        u64::from(params.seats),
        u64::from(params.era_blocks),
        u64::from(params.offset),
        u64::from(params.signed),
        u64::from(params.bonding_eras),
        params.least_bond,
        u64::from(params.queue),
        u64::from(params.solution_max),
        params.deposit,
        params.reward,
        params.era_reward,
    ]
}

#[test]
fn refused_geneses(rt: HostRuntime) {
    for &(bytes, at, why) in &REFUSED {
        assert_eq!(rt;
            genesis_fault(rt.alloc(), bytes),
            Some(WireFault { at, why })
        );
    }
}

fn genesis_fault(alloc: Global, bytes: &[u8]) -> Option<WireFault> {
    match read_whole::<Genesis>(alloc, bytes) {
        Err(ReadFault::Wire(fault)) => Some(fault),
        _ => None,
    }
}

// Three targets, two voters and a packed solution.
static PACKED: [u8; 210] = [
    0x08, // two seats
    0x0c, // three targets
    0, 0, 0, 0, 0, 0, 0, 0, 0, 0, 0, 0, 0, 0, 0, 0, 0, 0, 0, 0, 0, 0, 0, 0, 0, 0, 0, 0, 0, 0, 0,
    0x01, 0, 0, 0, 0, 0, 0, 0, 0, 0, 0, 0, 0, 0, 0, 0, 0, 0, 0, 0, 0, 0, 0, 0, 0, 0, 0, 0, 0, 0, 0,
    0, 0x02, 0, 0, 0, 0, 0, 0, 0, 0, 0, 0, 0, 0, 0, 0, 0, 0, 0, 0, 0, 0, 0, 0, 0, 0, 0, 0, 0, 0, 0,
    0, 0, 0x03, 0x08, // two voters
    0, 0, 0, 0, 0, 0, 0, 0, 0, 0, 0, 0, 0, 0, 0, 0, 0, 0, 0, 0, 0, 0, 0, 0, 0, 0, 0, 0, 0, 0, 0,
    0x04, 0xf0, 0x04, 0, // 60 for [0]
    0, 0, 0, 0, 0, 0, 0, 0, 0, 0, 0, 0, 0, 0, 0, 0, 0, 0, 0, 0, 0, 0, 0, 0, 0, 0, 0, 0, 0, 0, 0,
    0x05, 0xa0, 0x04, 0x04, // 40 for [1]
    0x01, 0xa0, 0x91, 0x01, 0x50, 0x14, 0, 0, 0, 0, 0, 0, 0, 0, 0, 0, 0, 0, 0, 0, // packed, the claim (40, 100, 5200)
    0x50, // 20 bytes
    0x08, 0, 0, 0x04, 0x04, 0, 0, 0, 0, 0, 0, 0, 0, 0, 0, 0, 0, 0, 0, 0, // the solution
];

// No target, no voter, and the committee [1] with one edge of 100 units from voter 2 to target 1.
static PLAIN_WORK: [u8; 11] = [
    0x04, 0, 0, 0x02, // one seat, plain
    0x04, 0x04, // the committee
    0x04, 0x08, 0x04, 0x91, 0x01, // the edge
];

// Takes what is whole: the places behind the genesis, of a block's number and behind the None.
fn take_whole(reader: &mut StreamReader, places: &mut Vec<u64>) -> Result<(), ReadFault> {
    if places.is_empty() {
        if reader.take_genesis(false)?.is_some() {
            places.push(reader.at())?;
        }
        return Ok(());
    }
    match reader.take_block(false)? {
        Next::More => {}
        Next::Block { at, .. } => places.push(at)?,
        Next::End => places.push(reader.at())?,
    }
    Ok(())
}

// A genesis of each kind, before a block of two transfers and the None, and the places in that
// stream.
static STREAMS: [(&[u8], [u64; 3]); 3] = [
    (&PLAIN, [69, 70, 205]),
    (&FULL, [82, 83, 218]),
    (&DEFERRED, [83, 84, 219]),
];

#[test]
fn a_stream_by_pieces(rt: HostRuntime) -> Result<(), Fail> {
    for &(genesis, whole) in &STREAMS {
        let mut stream = genesis.to_vec(rt.alloc())?;
        stream.extend_from_slice(&BLOCK)?;
        stream.push(0)?;
        for size in [1, 7, 65_536] {
            let mut reader = StreamReader::new(rt.alloc());
            let mut places = Vec::new(rt.alloc());
            for piece in stream.chunks(size) {
                assert!(rt; reader.at() < 300 && reader.len() < 300 && piece.len() < 300);
                reader.feed(piece)?;
                for _ in 0..3 {
                    take_whole(&mut reader, &mut places)?;
                }
            }
            assert_eq!(rt; places.as_slice(), whole.as_slice());
        }
    }
    Ok(())
}

// Bytes that no genesis or a cut one stands at, and whether the input has ended.
static CUT: [(&[u8], bool, Option<WireFault>); 5] = [
    (
        &[0x09],
        false,
        Some(WireFault {
            at: 0,
            why: Why::BadTag,
        }),
    ),
    (&[0x00, 0x04, 0x01], false, None),
    (
        &[0x00, 0x04, 0x01],
        true,
        Some(WireFault {
            at: 2,
            why: Why::Short,
        }),
    ),
    (&[0x01, 0x00, 0x01], false, None),
    (
        &[0x01, 0x00, 0x01],
        true,
        Some(WireFault {
            at: 2,
            why: Why::Short,
        }),
    ),
];

#[test]
fn a_cut_genesis_waits(rt: HostRuntime) -> Result<(), Fail> {
    for &(bytes, ended, fault) in &CUT {
        let mut reader = StreamReader::new(rt.alloc());
        assert!(rt; bytes.len() < 300);
        reader.feed(bytes)?;
        let found = match reader.take_genesis(ended) {
            Err(ReadFault::Wire(fault)) => Some(fault),
            _ => None,
        };
        assert_eq!(rt; (found, reader.len()), (fault, bytes.len()));
    }
    Ok(())
}

#[test]
fn the_laws_can_be_called() {
    laws::a_genesis_is_bounded();
    laws::an_option_of_a_block_is_bounded();
}
