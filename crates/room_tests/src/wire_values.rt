use npos_base::List;
use scale_wire::fault::{ReadFault, Why, WireFault};
use scale_wire::{BytesUpTo, Cursor, Layout, Own, Pen, RunOf, UpTo, Wire, laws, read_whole};
use std::alloc::Global;
use std::test::Fail;

type Sample = (Option<u32>, UpTo<(u16, u16), 2>, BytesUpTo<2>);

// Some(1), the list (1, 2), (3, 4) and the two bytes aa bb.
static SAMPLE: [u8; 10] = [0x01, 0x04, 0x08, 0x04, 0x08, 0x0c, 0x10, 0x08, 0xaa, 0xbb];

// Bytes that are refused as a whole sample, the place and the reason.
static REFUSED: [(&[u8], u64, Why); 9] = [
    (&[], 0, Why::Short),
    (&[0x02], 0, Why::BadTag),
    (&[0x01, 0x01, 0x00], 1, Why::NotShortest),
    (&[0x00], 1, Why::Short),
    (&[0x00, 0x0c], 1, Why::TooMany),
    (&[0x00, 0x08, 0x04, 0x08, 0x0c, 0x02], 5, Why::Short),
    (&[0x00, 0x00, 0x0c], 2, Why::TooMany),
    (&[0x00, 0x00, 0x08, 0xaa], 3, Why::Short),
    (&[0x00, 0x00, 0x00, 0x00], 3, Why::Trailing),
];

#[test]
fn a_sample_is_read_and_written(rt: HostRuntime) -> Result<(), Fail> {
    let sample = read_whole::<Sample>(rt.alloc(), &SAMPLE)?;
    let mut pen = Pen::new(rt.alloc());
    sample.write(&mut pen)?;
    assert_eq!(rt; pen.finish().as_slice(), SAMPLE.as_slice());
    let (option, pairs, bytes) = sample;
    assert_eq!(rt; option, Some(1));
    assert_eq!(rt; pairs.into_list().as_slice(), [(1, 2), (3, 4)].as_slice());
    assert_eq!(rt; bytes.into_list().as_slice(), [0xaa, 0xbb].as_slice());
    Ok(())
}

#[test]
fn samples_are_refused_where_they_should(rt: HostRuntime) {
    for &(bytes, at, why) in &REFUSED {
        assert_eq!(rt; fault_of(rt.alloc(), bytes), Some(WireFault { at, why }));
    }
}

fn fault_of(alloc: Global, bytes: &[u8]) -> Option<WireFault> {
    match read_whole::<Sample>(alloc, bytes) {
        Err(ReadFault::Wire(fault)) => Some(fault),
        _ => None,
    }
}

// A run of the numbers 1 and 2.
const RUN: [u8; 5] = [0x01, 0x04, 0x01, 0x08, 0x00];

// Bytes that are refused as a run of numbers, the place and the reason.
static REFUSED_RUNS: [(&[u8], u64, Why); 6] = [
    (&[], 0, Why::Short),
    (&[0x02], 0, Why::BadTag),
    (&[0x01], 1, Why::Short),
    (&[0x01, 0x04], 2, Why::Short),
    (&[0x01, 0x04, 0x02], 2, Why::BadTag),
    (&[0x01, 0x04, 0x01, 0x01, 0x00], 3, Why::NotShortest),
];

#[test]
fn a_run_is_read_and_written(rt: HostRuntime) -> Result<(), Fail> {
    let mut cursor = Cursor::new(&RUN, 0);
    let numbers: List<u16> = RunOf::<Own>::read(rt.alloc(), &mut cursor)?;
    assert_eq!(rt; (numbers.as_slice(), cursor.at()), ([1, 2].as_slice(), 5));
    let mut pen = Pen::new(rt.alloc());
    RunOf::<Own>::write(&numbers, &mut pen)?;
    assert_eq!(rt; pen.finish().as_slice(), RUN.as_slice());
    Ok(())
}

#[test]
fn runs_are_refused_where_they_should(rt: HostRuntime) {
    for &(bytes, at, why) in &REFUSED_RUNS {
        let mut cursor = Cursor::new(bytes, 0);
        let read: Result<List<u16>, ReadFault> = RunOf::<Own>::read(rt.alloc(), &mut cursor);
        let fault = match read {
            Err(ReadFault::Wire(fault)) => Some(fault),
            _ => None,
        };
        assert_eq!(rt; (fault, cursor.at()), (Some(WireFault { at, why }), 0));
    }
}

#[test]
fn truth_values_are_read_and_written(rt: HostRuntime) -> Result<(), Fail> {
    let flags = read_whole::<(bool, bool)>(rt.alloc(), &[0x01, 0x00])?;
    assert_eq!(rt; flags, (true, false));
    let mut pen = Pen::new(rt.alloc());
    flags.write(&mut pen)?;
    assert_eq!(rt; pen.finish().as_slice(), [0x01, 0x00].as_slice());
    Ok(())
}

#[test]
fn the_laws_can_be_called() {
    laws::values_are_read_back::<Sample>();
    laws::bytes_are_decided::<Sample>();
    laws::whole_inputs_are_decided::<Sample>();
    laws::faults_persist::<Sample>();
    laws::only_whole_inputs_trail::<Sample>();
    laws::spellings_are_bounded::<Sample>();
    laws::fixed_numbers_keep_the_laws();
    laws::byte_strings_keep_the_laws(2);
    laws::tags_keep_the_laws(2);
    laws::lengths_keep_the_laws(2);
    laws::runs_keep_the_laws::<Sample>();
    laws::value_bytes_are_the_fewest(1);
}
