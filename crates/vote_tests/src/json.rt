use block_wire::Bundle;
use bundle_json::{JsonFault, bundle_from_json, bundle_to_json};
use npos_base::{List, NoMemory};
use scale_wire::{Pen, Wire, read_whole};
use std::alloc::Global;
use std::test::Fail;

// Bundles in SCALE, and what they are shown as.
static SHOWN: [(&[u8], &[u8]); 3] = [
    // one seat, target 1, voter 2 with a stake of 5 for [0], no work
    (
        &[
            0x04, 0x04, // one seat, one target
            0, 0, 0, 0, 0, 0, 0, 0, 0, 0, 0, 0, 0, 0, 0, 0, 0, 0, 0, 0, 0, 0, 0, 0, 0, 0, 0, 0, 0,
            0, 0, 0x01, // account 1
            0x04, // one voter
            0, 0, 0, 0, 0, 0, 0, 0, 0, 0, 0, 0, 0, 0, 0, 0, 0, 0, 0, 0, 0, 0, 0, 0, 0, 0, 0, 0, 0,
            0, 0, 0x02, // account 2
            0x14, 0x04, 0x00, 0x00, // 5 for [0], no work
        ],
        b"{\"seats\":1,\"targets\":[\"0000000000000000000000000000000000000000000000000000000000000001\"],\"voters\":[{\"account\":\"0000000000000000000000000000000000000000000000000000000000000002\",\"stake\":5,\"votes\":[0]}],\"work\":null}",
    ),
    // a solution of two bytes, with the claim (5, 6, 7)
    (
        &[
            0x04, 0x00, 0x00, 0x01, 0x14, 0x18, 7, 0, 0, 0, 0, 0, 0, 0, 0, 0, 0, 0, 0, 0, 0, 0,
            0x08, 0xab, 0x0c,
        ],
        b"{\"seats\":1,\"targets\":[],\"voters\":[],\"work\":{\"claim\":[5,6,\"7\"],\"solution\":\"ab0c\"}}",
    ),
    // the committee [0, 1] with one edge
    (
        &[
            0x04, 0x00, 0x00, 0x02, 0x08, 0x00, 0x04, 0x04, 0x08, 0x0c, 0x10,
        ],
        b"{\"seats\":1,\"targets\":[],\"voters\":[],\"work\":{\"committee\":[0,1],\"edges\":[[2,3,4]]}}",
    ),
];

// Other texts of bundles: with digits of either case, with a key twice, of which the last counts, and with
// the keys in another order.
static OTHERS: [(&[u8], &[u8]); 4] = [
    (
        b"{\"seats\":1,\"targets\":[\"00000000000000000000000000000000000000000000000000000000000000aB\"],\"voters\":[],\"work\":null}",
        &[
            0x04, 0x04, 0, 0, 0, 0, 0, 0, 0, 0, 0, 0, 0, 0, 0, 0, 0, 0, 0, 0, 0, 0, 0, 0, 0, 0, 0,
            0, 0, 0, 0, 0, 0, 0xab, 0x00, 0x00,
        ],
    ),
    (
        b"{\"seats\":1,\"targets\":[],\"voters\":[],\"work\":{\"claim\":[5,6,\"7\"],\"solution\":\"AB0c\"}}",
        &[
            0x04, 0x00, 0x00, 0x01, 0x14, 0x18, 7, 0, 0, 0, 0, 0, 0, 0, 0, 0, 0, 0, 0, 0, 0, 0,
            0x08, 0xab, 0x0c,
        ],
    ),
    (
        b"{\"seats\":9,\"targets\":[],\"voters\":[],\"seats\":1,\"work\":{},\"work\":null}",
        &[0x04, 0x00, 0x00, 0x00],
    ),
    (
        b"{\"work\":{\"edges\":[[2,3,4]],\"committee\":[0,1]},\"voters\":[],\"targets\":[],\"seats\":1}",
        &[
            0x04, 0x00, 0x00, 0x02, 0x08, 0x00, 0x04, 0x04, 0x08, 0x0c, 0x10,
        ],
    ),
];

// Texts that are refused.
static REFUSED: [(&[u8], JsonFault); 17] = [
    (b"{", JsonFault::Json),
    (b"", JsonFault::Json),
    // a number that no float holds
    (
        b"{\"seats\":1e999,\"targets\":[],\"voters\":[],\"work\":null}",
        JsonFault::Json,
    ),
    (b"{}", JsonFault::Shape),
    (b"null", JsonFault::Shape),
    // whole numbers have no point, no exponent and no sign; seats have 32 bits
    (
        b"{\"seats\":1.0,\"targets\":[],\"voters\":[],\"work\":null}",
        JsonFault::Shape,
    ),
    (
        b"{\"seats\":1e0,\"targets\":[],\"voters\":[],\"work\":null}",
        JsonFault::Shape,
    ),
    (
        b"{\"seats\":-0,\"targets\":[],\"voters\":[],\"work\":null}",
        JsonFault::Shape,
    ),
    (
        b"{\"seats\":4294967296,\"targets\":[],\"voters\":[],\"work\":null}",
        JsonFault::Shape,
    ),
    // a key too many
    (
        b"{\"more\":0,\"seats\":1,\"targets\":[],\"voters\":[],\"work\":null}",
        JsonFault::Shape,
    ),
    // an account of 63 digits
    (
        b"{\"seats\":1,\"targets\":[\"000000000000000000000000000000000000000000000000000000000000000\"],\"voters\":[],\"work\":null}",
        JsonFault::Shape,
    ),
    // 65 votes
    (
        b"{\"seats\":1,\"targets\":[],\"voters\":[{\"account\":\"0000000000000000000000000000000000000000000000000000000000000002\",\"stake\":5,\"votes\":[0,0,0,0,0,0,0,0,0,0,0,0,0,0,0,0,0,0,0,0,0,0,0,0,0,0,0,0,0,0,0,0,0,0,0,0,0,0,0,0,0,0,0,0,0,0,0,0,0,0,0,0,0,0,0,0,0,0,0,0,0,0,0,0,0]}],\"work\":null}",
        JsonFault::Shape,
    ),
    // squares with a needless zero, with a sign, of 129 bits
    (
        b"{\"seats\":1,\"targets\":[],\"voters\":[],\"work\":{\"claim\":[5,6,\"07\"],\"solution\":\"\"}}",
        JsonFault::Shape,
    ),
    (
        b"{\"seats\":1,\"targets\":[],\"voters\":[],\"work\":{\"claim\":[5,6,\"+7\"],\"solution\":\"\"}}",
        JsonFault::Shape,
    ),
    (
        b"{\"seats\":1,\"targets\":[],\"voters\":[],\"work\":{\"claim\":[5,6,\"340282366920938463463374607431768211456\"],\"solution\":\"\"}}",
        JsonFault::Shape,
    ),
    // half a byte
    (
        b"{\"seats\":1,\"targets\":[],\"voters\":[],\"work\":{\"claim\":[5,6,\"7\"],\"solution\":\"0\"}}",
        JsonFault::Shape,
    ),
    // an edge of two numbers
    (
        b"{\"seats\":1,\"targets\":[],\"voters\":[],\"work\":{\"committee\":[],\"edges\":[[2,3]]}}",
        JsonFault::Shape,
    ),
];

fn read(alloc: Global, text: &[u8]) -> Result<List<u8>, JsonFault> {
    let bundle = bundle_from_json(alloc, text)?;
    let mut pen = Pen::new(alloc);
    bundle.write(&mut pen)?;
    Ok(pen.finish())
}

#[test]
fn bundles_and_their_texts(rt: HostRuntime) -> Result<(), Fail> {
    for &(bytes, text) in &SHOWN {
        let bundle = read_whole::<Bundle>(rt.alloc(), bytes)?;
        assert_eq!(rt; bundle_to_json(rt.alloc(), &bundle)?.as_slice(), text);
        assert_eq!(rt; read(rt.alloc(), text)?.as_slice(), bytes);
    }
    Ok(())
}

#[test]
fn other_texts_are_read(rt: HostRuntime) -> Result<(), Fail> {
    for &(text, bytes) in &OTHERS {
        assert_eq!(rt; read(rt.alloc(), text)?.as_slice(), bytes);
    }
    Ok(())
}

// How many bytes a solution has whose bundle has a text of 65,536 bytes.
const LONG: u64 = 32_729;

// The bundle, whose solution is as many bytes ab.
fn long_bundle(alloc: Global) -> Result<List<u8>, NoMemory> {
    let mut pen = Pen::new(alloc);
    pen.put_bytes(&[0x04, 0x00, 0x00, 0x01, 0x14, 0x18])?;
    pen.put_u128(77)?;
    pen.put_compact(LONG)?;
    for _ in 0..LONG {
        pen.put_u8(0xab)?;
    }
    Ok(pen.finish())
}

// Its text.
fn long_text(alloc: Global) -> Result<List<u8>, NoMemory> {
    let mut pen = Pen::new(alloc);
    pen.put_bytes(
        b"{\"seats\":1,\"targets\":[],\"voters\":[],\"work\":{\"claim\":[5,6,\"77\"],\"solution\":\"",
    )?;
    for _ in 0..LONG {
        pen.put_bytes(b"ab")?;
    }
    pen.put_bytes(b"\"}}")?;
    Ok(pen.finish())
}

#[test]
fn a_text_of_65536_bytes(rt: HostRuntime) -> Result<(), Fail> {
    let bytes = long_bundle(rt.alloc())?;
    let text = long_text(rt.alloc())?;
    let bundle = read_whole::<Bundle>(rt.alloc(), bytes.as_slice())?;
    let shown = bundle_to_json(rt.alloc(), &bundle)?;
    assert_eq!(rt; shown.len(), 65_536);
    assert_eq!(rt; shown.as_slice(), text.as_slice());
    assert_eq!(rt;
        read(rt.alloc(), text.as_slice())?.as_slice(),
        bytes.as_slice()
    );
    Ok(())
}

#[test]
fn other_texts_are_refused(rt: HostRuntime) {
    for &(text, fault) in &REFUSED {
        assert_eq!(rt; read(rt.alloc(), text).err(), Some(fault));
    }
}
