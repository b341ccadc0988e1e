//! Runs of the program over an outside in memory, whose reads and writes are of a size that is chosen,
//! and fail where it is chosen.
use npos_base::{List, MemorySink, MemorySource, NoMemory};
use npos_cli::run;
use scale_wire::Pen;
use std::alloc::Global;
use std::process::Abort;

/// How many bytes a read gives and a write takes, and the numbers of the reads and writes that
/// fail.
#[derive(Clone, Copy)]
pub struct Outside<'a> {
    pub piece: usize,
    pub reads: &'a [u64],
    pub writes: &'a [u64],
}

/// An outside that never fails, with pieces of this size.
pub fn calm(piece: usize) -> Outside<'static> {
    Outside {
        piece,
        reads: &[],
        writes: &[],
    }
}

/// What a run came to.
#[derive(Drop)]
pub struct Ran {
    pub status: u8,
    pub written: Vec<u8>,
    pub flushed: usize,
    pub left: usize,
}

fn words_of(alloc: Global, words: &[&str]) -> Result<Vec<String>, NoMemory> {
    let mut owned = Vec::new(alloc);
    for word in words {
        owned.push(String::from_str(alloc, word)?)?;
    }
    Ok(owned)
}

pub fn put_parts(pen: &mut Pen, parts: &[&[u8]]) -> Result<(), NoMemory> {
    for part in parts {
        pen.put_bytes(part)?;
    }
    Ok(())
}

/// Runs the words over these bytes.
pub fn run_over(
    alloc: Global,
    words: &[&str],
    bytes: List<u8>,
    outside: Outside<'_>,
) -> Result<Ran, NoMemory> {
    let words = words_of(alloc, words)?;
    let reads = List::from_vec(Vec::from_slice(alloc, outside.reads)?);
    let writes = List::from_vec(Vec::from_slice(alloc, outside.writes)?);
    let piece = outside.piece.max(1);
    let mut source = MemorySource::new(bytes, piece, reads);
    let mut sink = MemorySink::new(alloc, piece, writes);
    sink.reserve(65_536)?;
    let status = run(alloc, words.as_slice(), &mut source, &mut sink).number();
    Ok(Ran {
        status,
        written: Vec::from_slice(alloc, sink.written())?,
        flushed: sink.flushed(),
        left: source.left().len(),
    })
}

/// Replays the parts of a stream.
pub fn replay_parts(alloc: Global, parts: &[&[u8]], outside: Outside<'_>) -> Result<Ran, NoMemory> {
    let mut pen = Pen::new(alloc);
    put_parts(&mut pen, parts)?;
    run_over(alloc, &["npos", "replay"], pen.finish(), outside)
}

/// The text was written whole, and all of it was flushed.
pub fn delivered(rt: &impl Abort, ran: &Ran, status: u8, text: &str) {
    assert_eq!(rt; ran.written.as_slice(), text.as_bytes());
    assert_eq!(rt; ran.flushed, text.len());
    assert_eq!(rt; ran.status, status);
}
