use npos_base::{AccountId, Edge, List, NoMemory, Score};
use scale_wire::fault::{Why, WireFault};
use scale_wire::{Cursor, Pen, Wire, read_whole};
use std::alloc::Global;
use std::test::Fail;

static WORKED: [(u64, &[u8]); 7] = [
    (63, &[0xfc]),
    (64, &[0x01, 0x01]),
    (16_383, &[0xfd, 0xff]),
    (16_384, &[0x02, 0x00, 0x01, 0x00]),
    (1_073_741_823, &[0xfe, 0xff, 0xff, 0xff]),
    (1_073_741_824, &[0x03, 0x00, 0x00, 0x00, 0x40]),
    (
        u64::MAX,
        &[0x13, 0xff, 0xff, 0xff, 0xff, 0xff, 0xff, 0xff, 0xff],
    ),
];

// The bits of the type, bytes that it refuses at their first, and the reason.
static REFUSED: [(u8, &[u8], Why); 6] = [
    (32, &[0x01, 0x00], Why::NotShortest),
    (64, &[0x07, 0x00, 0x00, 0x00, 0x40, 0x00], Why::NotShortest),
    (32, &[0x01], Why::Short),
    (
        64,
        &[0x17, 0xff, 0xff, 0xff, 0xff, 0xff, 0xff, 0xff, 0xff, 0xff],
        Why::TooWide,
    ),
    (16, &[0x02, 0x00, 0x04, 0x00], Why::TooWide),
    (32, &[0x07], Why::TooWide),
];

#[test]
fn worked_compact_integers(rt: HostRuntime) -> Result<(), Fail> {
    for &(value, bytes) in &WORKED {
        assert_eq!(rt; Cursor::new(bytes, 0).take_compact_u64(), Ok(value));
        let mut pen = Pen::new(rt.alloc());
        pen.put_compact(value)?;
        assert_eq!(rt; pen.finish().as_slice(), bytes);
    }
    Ok(())
}

#[test]
fn refused_compact_integers(rt: HostRuntime) {
    for &(bits, bytes, why) in &REFUSED {
        assert_eq!(rt; compact_fault(bits, bytes), Some(WireFault { at: 9, why }));
    }
}

// What is refused of a compact integer of a type of so many bits, whose first byte has the place 9.
fn compact_fault(bits: u8, bytes: &[u8]) -> Option<WireFault> {
    let mut cursor = Cursor::new(bytes, 9);
    match bits {
        16 => cursor.take_compact_u16().err(),
        32 => cursor.take_compact_u32().err(),
        _ => cursor.take_compact_u64().err(),
    }
}

#[derive(Debug, Drop, PartialEq)]
struct Parts {
    tag: u8,
    byte: u8,
    word: u32,
    wide: u128,
    account: AccountId,
    length: u32,
}

const VALUES: Parts = Parts {
    tag: 1,
    byte: 200,
    word: 0x0403_0201,
    wide: 0x8000_0000_0000_0000_0000_0000_0000_0001,
    account: AccountId {
        hi: 0x0001_0203_0405_0607_0809_0a0b_0c0d_0e0f,
        lo: 0x1011_1213_1415_1617_1819_1a1b_1c1d_1e1f,
    },
    length: 2,
};

static SPELLED: [u8; 57] = [
    0x01, 0xc8, 0x01, 0x02, 0x03, 0x04, // the tag, the byte and the word
    0x01, 0, 0, 0, 0, 0, 0, 0, 0, 0, 0, 0, 0, 0, 0, 0x80, // the wide number
    0x00, 0x01, 0x02, 0x03, 0x04, 0x05, 0x06, 0x07, 0x08, 0x09, 0x0a, 0x0b, 0x0c, 0x0d, 0x0e, 0x0f, // the account
    0x10, 0x11, 0x12, 0x13, 0x14, 0x15, 0x16, 0x17, 0x18, 0x19, 0x1a, 0x1b, 0x1c, 0x1d, 0x1e, 0x1f, //
    0x08, 0xaa, 0xbb, // two bytes behind their length
];

#[test]
fn parts_are_read_in_order(rt: HostRuntime) -> Result<(), Fail> {
    let mut cursor = Cursor::new(&SPELLED, 0);
    assert_eq!(rt; read_parts(&mut cursor), Ok(VALUES));
    assert_eq!(rt; cursor.at(), 55);
    assert_eq!(rt;
        cursor.take_bytes(3),
        Err(WireFault {
            at: 55,
            why: Why::Short
        })
    );
    assert_eq!(rt;
        cursor.take_tag(0xaa),
        Err(WireFault {
            at: 55,
            why: Why::BadTag
        })
    );
    assert_eq!(rt; cursor.take_bytes(2), Ok([0xaa, 0xbb].as_slice()));
    assert_eq!(rt; cursor.rest().len(), 0);
    Ok(())
}

fn read_parts(cursor: &mut Cursor<'_>) -> Result<Parts, WireFault> {
    Ok(Parts {
        tag: cursor.take_tag(2)?,
        byte: cursor.take_u8()?,
        word: cursor.take_u32()?,
        wide: cursor.take_u128()?,
        account: cursor.take_account()?,
        length: cursor.take_length(2)?,
    })
}

#[test]
fn parts_are_written_in_order(rt: HostRuntime) -> Result<(), Fail> {
    assert_eq!(rt; write_parts(rt.alloc())?.as_slice(), SPELLED.as_slice());
    Ok(())
}

fn write_parts(alloc: Global) -> Result<List<u8>, NoMemory> {
    let mut pen = Pen::new(alloc);
    pen.put_u8(VALUES.tag)?;
    pen.put_u8(VALUES.byte)?;
    pen.put_u32(VALUES.word)?;
    pen.put_u128(VALUES.wide)?;
    pen.put_account(VALUES.account)?;
    pen.put_compact(u64::from(VALUES.length))?;
    pen.put_bytes(&[0xaa, 0xbb])?;
    Ok(pen.finish())
}

const SCORE: Score = Score {
    minimal: 63,
    sum: 64,
    squares: 5,
};

const EDGE: Edge = Edge {
    voter: 16_384,
    target: 16_383,
    amount: 1_073_741_824,
};

static FIGURES: [u8; 30] = [
    0xfc, 0x01, 0x01, 5, 0, 0, 0, 0, 0, 0, 0, 0, 0, 0, 0, 0, 0, 0, 0, // the score
    0x02, 0x00, 0x01, 0x00, 0xfd, 0xff, 0x03, 0x00, 0x00, 0x00, 0x40, // the edge
];

#[test]
fn scores_and_edges_are_their_fields_in_order(rt: HostRuntime) -> Result<(), Fail> {
    let mut pen = Pen::new(rt.alloc());
    (SCORE, EDGE).write(&mut pen)?;
    assert_eq!(rt; pen.finish().as_slice(), FIGURES.as_slice());
    assert_eq!(rt;
        read_whole::<(Score, Edge)>(rt.alloc(), &FIGURES),
        Ok((SCORE, EDGE))
    );
    Ok(())
}
