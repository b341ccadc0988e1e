//! One walk through the crate's calls with ample memory, which no contract promises.
use npos_base::{
    AccountId, Asked, Failed, List, MemorySink, MemorySource, NoMemory, PlainSink, PlainSource,
    PutFault, ReadSource, Room, Score, Sink, Source, StdinSource, StdoutSink, Tried, Watched,
    WriteSink, laws, part_of, put_all,
};
use std::alloc::{AllocError, Global};
use std::test::Fail;

static COUNTED: [u8; 32] = [
    0, 1, 2, 3, 4, 5, 6, 7, 8, 9, 10, 11, 12, 13, 14, 15, 16, 17, 18, 19, 20, 21, 22, 23, 24, 25,
    26, 27, 28, 29, 30, 31,
];

fn list_of<T: Copy>(alloc: Global, items: &[T]) -> Result<List<T>, AllocError> {
    Ok(List::from_vec(Vec::from_slice(alloc, items)?))
}

fn score_of(numbers: (u64, u64, u128)) -> Score {
    let (minimal, sum, squares) = numbers;
    Score {
        minimal,
        sum,
        squares,
    }
}

#[test]
fn an_account_is_two_big_endian_halves(rt: HostRuntime) {
    let counted = AccountId::from_bytes(&COUNTED);
    assert_eq!(rt; counted.hi, 0x00010203_04050607_08090a0b_0c0d0e0f);
    assert_eq!(rt; counted.lo, 0x10111213_14151617_18191a1b_1c1d1e1f);
    assert_eq!(rt; counted.to_bytes(), COUNTED);
    assert!(rt; AccountId { hi: 1, lo: 0 } > AccountId { hi: 0, lo: 9 });
}

#[test]
fn each_law_is_called(_rt: HostRuntime) {
    let account = AccountId { hi: 1, lo: 2 };
    let score = Score {
        minimal: 1,
        sum: 2,
        squares: 3,
    };
    laws::an_account_keeps_its_bytes(&COUNTED);
    laws::bytes_keep_their_account(&account);
    laws::accounts_stand_in_the_order_of_their_bytes(&account, &account);
    laws::equality_tells_accounts_apart(&account, &account);
    laws::no_score_is_better_than_itself(&score);
    laws::better_than_a_better_score_is_better(&score, &score, &score);
    laws::scores_that_tie_are_equal(&score, &score);
}

#[test]
fn scores_and_parts(rt: HostRuntime) {
    // from the best to the worst
    let scores = [(41, 1, 9), (40, 100, 5200), (40, 100, 5201), (40, 99, 1)].map(score_of);
    for (place, score) in scores.iter().enumerate() {
        for (other_place, other) in scores.iter().enumerate() {
            assert_eq!(rt; score.better_than(other), place < other_place);
        }
    }
    assert_eq!(rt; part_of(10, 21_845, 65_535), 3);
    assert_eq!(rt; part_of(u64::MAX, u64::MAX, u64::MAX), u64::MAX);
}

#[test]
fn what_failed_says_so(rt: HostRuntime) -> Result<(), Fail> {
    let text = format!(in rt.alloc(); "{NoMemory:?} {Failed:?} {:?}", PutFault { put: 7 })?;
    assert_eq!(rt; text.as_str(), "NoMemory Failed PutFault { put: 7 }");
    Ok(())
}

#[test]
fn lists_and_rooms_take_items(rt: HostRuntime) -> Result<(), Fail> {
    let mut list = List::new(rt.alloc());
    assert!(rt; list.is_empty());
    assert_eq!(rt; list.push(7u64), Ok(()));
    let mut room = Room::with_room(rt.alloc(), 1)?;
    room.push_within(7u64);
    room.reserve(1)?;
    assert_eq!(rt; list.as_slice(), room.as_slice());
    assert_eq!(rt; room.into_list().into_vec().as_slice(), [7].as_slice());
    Ok(())
}

#[test]
fn a_memory_source_gives_short_reads_and_chosen_failures(rt: HostRuntime) -> Result<(), Fail> {
    let bytes = list_of(rt.alloc(), b"lotus")?;
    let mut source = MemorySource::new(bytes, 3, list_of(rt.alloc(), &[1])?);
    let mut buffer = [0; 8];
    assert_eq!(rt; source.read(&mut buffer), Ok(3));
    assert_eq!(rt; source.read(&mut buffer), Err(Failed));
    assert_eq!(rt; source.left(), b"us".as_slice());
    assert_eq!(rt; source.read(&mut buffer), Ok(2));
    assert_eq!(rt; source.read(&mut buffer), Ok(0));
    Ok(())
}

#[test]
fn put_all_counts_what_was_put_before_a_failure(rt: HostRuntime) -> Result<(), Fail> {
    let mut sink = MemorySink::new(rt.alloc(), 2, list_of(rt.alloc(), &[3])?);
    sink.reserve(8)?;
    assert_eq!(rt; put_all(&mut sink, b"lotus"), Ok(()));
    assert_eq!(rt; put_all(&mut sink, b"lo"), Err(PutFault { put: 0 }));
    assert_eq!(rt; sink.flush(), Ok(()));
    assert_eq!(rt; sink.flushed(), 5);
    assert_eq!(rt; sink.written(), b"lotus".as_slice());
    Ok(())
}

#[test]
fn the_others_never_fail(rt: HostRuntime) -> Result<(), Fail> {
    let mut buffer = [0; 8];
    let mut source = PlainSource::new(list_of(rt.alloc(), b"lotus")?);
    assert_eq!(rt; source.read(&mut buffer), Ok(5));
    let mut sink = PlainSink::new(rt.alloc(), 3)?;
    assert_eq!(rt; put_all(&mut sink, &buffer[..5]), Ok(()));
    assert_eq!(rt; sink.kept(), b"lot".as_slice());
    Ok(())
}

#[test]
fn readers_and_writers_are_sources_and_sinks(rt: HostRuntime) -> Result<(), Fail> {
    let mut buffer = [0; 8];
    let mut source = ReadSource::new(b"lotus".as_slice());
    assert_eq!(rt; source.read(&mut buffer), Ok(5));
    let mut sink = WriteSink::<Vec<u8>, Watched>::new(Vec::new(rt.alloc()));
    assert_eq!(rt; put_all(&mut sink, &buffer[..5]), Ok(()));
    assert_eq!(rt; sink.flush(), Ok(()));
    assert_eq!(rt; StdinSource::new(rt.stdin()).read(&mut []), Ok(0));
    assert_eq!(rt; StdoutSink::new(rt.stdout()).flush(), Ok(()));
    Ok(())
}

#[test]
fn calls_behind_the_end_or_a_failure_are_noted(rt: HostRuntime) {
    let mut asked = Asked::new();
    asked.gave(8, 0);
    assert_eq!(rt;
        asked,
        Asked {
            ended: true,
            late: false,
            last: 0
        }
    );
    asked.gave(8, 3);
    assert_eq!(rt;
        asked,
        Asked {
            ended: true,
            late: true,
            last: 3
        }
    );
    let mut tried = Tried::new();
    tried.wrote();
    tried.failed();
    tried.flushed();
    assert_eq!(rt;
        tried,
        Tried {
            failed: true,
            late: true,
            flushed: true
        }
    );
}
