//! Bundles in one form and the other, and generated elections, through the top call.
use crate::outside::{calm, run_over};
use npos_base::{List, NoMemory};
use std::alloc::Global;
use std::test::Fail;

// Bundles in SCALE, and the line that each is shown as.
static SHOWN: [(&[u8], &str); 2] = [
    (
        &[
            0x04, 0x04, // one seat, one target
            0, 0, 0, 0, 0, 0, 0, 0, 0, 0, 0, 0, 0, 0, 0, 0, 0, 0, 0, 0, 0, 0, 0, 0, 0, 0, 0, 0, 0,
            0, 0, 0x01, // account 1
            0x04, // one voter
            0, 0, 0, 0, 0, 0, 0, 0, 0, 0, 0, 0, 0, 0, 0, 0, 0, 0, 0, 0, 0, 0, 0, 0, 0, 0, 0, 0, 0,
            0, 0, 0x02, // account 2
            0x14, 0x04, 0x00, 0x00, // 5 for [0], no work
        ],
        "{\"seats\":1,\"targets\":[\"0000000000000000000000000000000000000000000000000000000000000001\"],\"voters\":[{\"account\":\"0000000000000000000000000000000000000000000000000000000000000002\",\"stake\":5,\"votes\":[0]}],\"work\":null}\n",
    ),
    (
        &[
            0x08, 0x0c, // two seats, three targets
            0, 0, 0, 0, 0, 0, 0, 0, 0, 0, 0, 0, 0, 0, 0, 0, 0, 0, 0, 0, 0, 0, 0, 0, 0, 0, 0, 0, 0,
            0, 0, 0x01, // account 1
            0, 0, 0, 0, 0, 0, 0, 0, 0, 0, 0, 0, 0, 0, 0, 0, 0, 0, 0, 0, 0, 0, 0, 0, 0, 0, 0, 0, 0,
            0, 0, 0x02, // account 2
            0, 0, 0, 0, 0, 0, 0, 0, 0, 0, 0, 0, 0, 0, 0, 0, 0, 0, 0, 0, 0, 0, 0, 0, 0, 0, 0, 0, 0,
            0, 0, 0x03, // account 3
            0x08, // two voters
            0, 0, 0, 0, 0, 0, 0, 0, 0, 0, 0, 0, 0, 0, 0, 0, 0, 0, 0, 0, 0, 0, 0, 0, 0, 0, 0, 0, 0,
            0, 0, 0x04, // account 4
            0x19, 0x01, 0x08, 0x00, 0x04, // 70 for [0, 1]
            0, 0, 0, 0, 0, 0, 0, 0, 0, 0, 0, 0, 0, 0, 0, 0, 0, 0, 0, 0, 0, 0, 0, 0, 0, 0, 0, 0, 0,
            0, 0, 0x05, // account 5
            0x78, 0x04, 0x08, 0x00, // 30 for [2], no work
        ],
        "{\"seats\":2,\"targets\":[\"0000000000000000000000000000000000000000000000000000000000000001\",\"0000000000000000000000000000000000000000000000000000000000000002\",\"0000000000000000000000000000000000000000000000000000000000000003\"],\"voters\":[{\"account\":\"0000000000000000000000000000000000000000000000000000000000000004\",\"stake\":70,\"votes\":[0,1]},{\"account\":\"0000000000000000000000000000000000000000000000000000000000000005\",\"stake\":30,\"votes\":[2]}],\"work\":null}\n",
    ),
];

// Inputs that are refused, and the line.
static REFUSED: [(&str, &[u8], &str); 6] = [
    ("pack", b"{", "fault 0 json\n"),
    ("pack", b"\xff", "fault 0 json\n"),
    ("pack", b"{}", "fault 0 shape\n"),
    ("pack", b"[1,2,3]", "fault 0 shape\n"),
    ("show", b"\x04\x00\x00", "fault 3 short\n"),
    ("show", b"\x04\x00\x00\x00\x00", "fault 4 trailing\n"),
];

// Seed, voters and seats of generated elections, and what is written of them.
static DEMOS: [([&str; 3], &str); 4] = [
    (
        ["--seed=7", "--voters=2000", "--seats=32"],
        "demo targets 128 voters 2000 total 2989752419\nfill score 25873683 2533760683 217241973097621563 verdict 0\nseq score 64642732 2708088316 232654365039395356 verdict 0\n",
    ),
    (
        ["--seats=1", "--voters=1", "--seed=0"],
        "demo targets 4 voters 1 total 1951807\nfill score 1951807 1951807 3809550565249 verdict 0\nseq score 1951807 1951807 3809550565249 verdict 0\n",
    ),
    (
        ["--seed=0", "--voters=3", "--seats=512"],
        "demo targets 2048 voters 3 total 5445227\nfill score 0 329685 3506199975 verdict 0\nseq lost 0\n",
    ),
    // as many voters and seats as there may be
    (
        ["--seed=7", "--voters=16384", "--seats=512"],
        "demo targets 2048 voters 16384 total 24527241308\nfill score 14693700 21236548727 934327912430928695 verdict 0\nseq score 34745101 22422806676 994749366823126750 verdict 0\n",
    ),
];

// What these words write for these bytes, and the status.
fn answered(alloc: Global, said: &[&str], bytes: &[u8]) -> Result<(Vec<u8>, u8), NoMemory> {
    let bytes = List::from_vec(Vec::from_slice(alloc, bytes)?);
    let ran = run_over(alloc, said, bytes, calm(4096))?;
    Ok((ran.written, ran.status))
}

#[test]
fn bundles_are_shown_and_packed(rt: HostRuntime) -> Result<(), Fail> {
    for &(bytes, line) in &SHOWN {
        let (text, shown) = answered(rt.alloc(), &["npos", "show"], bytes)?;
        let (back, packed) = answered(rt.alloc(), &["npos", "pack"], text.as_slice())?;
        assert_eq!(rt; text.as_slice(), line.as_bytes());
        assert_eq!(rt; back.as_slice(), bytes);
        assert_eq!(rt; (shown, packed), (0, 0));
    }
    Ok(())
}

#[test]
fn what_is_no_bundle_is_refused(rt: HostRuntime) -> Result<(), Fail> {
    for &(verb, bytes, line) in &REFUSED {
        let (text, status) = answered(rt.alloc(), &["npos", verb], bytes)?;
        assert_eq!(rt; text.as_slice(), line.as_bytes());
        assert_eq!(rt; status, 3);
    }
    Ok(())
}

#[test]
fn generated_elections_are_reported_on(rt: HostRuntime) -> Result<(), Fail> {
    for &(options, text) in &DEMOS {
        let [first, second, third] = options;
        let words = ["npos", "demo", first, second, third];
        let (once, status) = answered(rt.alloc(), &words, b"")?;
        let (again, _) = answered(rt.alloc(), &words, b"")?;
        assert_eq!(rt; once.as_slice(), text.as_bytes());
        assert_eq!(rt; again.as_slice(), text.as_bytes());
        assert_eq!(rt; status, 0);
    }
    Ok(())
}
