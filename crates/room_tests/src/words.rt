//! Words and the commands that they ask for. The expected ones are the rules', by hand.
use npos_base::NoMemory;
use npos_words::{Command, command_of, laws};
use std::alloc::Global;
use std::test::Fail;

/// Words behind the program's name, parted by blanks, and the text of their command, which is empty
/// where they have none.
static WORDS: [(&str, &str); 56] = [
    ("replay", "replay"),
    ("check", "check"),
    ("pack", "pack"),
    ("show", "show"),
    ("checkpoint", "checkpoint"),
    ("resume", "resume"),
    ("pools", "pools"),
    ("resume --rounds 3", ""),
    ("pools --rounds 3", ""),
    ("replay x", ""),
    ("replay --", ""),
    ("check --help", ""),
    ("show --version", ""),
    ("best", ""),
    ("Replay", ""),
    ("--", ""),
    ("mine --rounds 3 --miner=mms", "mine Mms(3)"),
    ("mine --miner fill", "mine Fill"),
    ("mine --miner mms", "mine Mms(8)"),
    (
        "mine --miner=mms --rounds=00000000000000000100",
        "mine Mms(100)",
    ),
    ("mine --miner=seq --rounds 100", "mine Seq"),
    ("mine --miner mms --rounds 0", ""),
    ("mine --miner mms --rounds 101", ""),
    ("mine", ""),
    ("mine --miner best", ""),
    ("mine --miner fill --miner fill", ""),
    ("mine --miner=fill --rounds 1 --miner seq", ""),
    ("mine --miner", ""),
    ("mine --miner --rounds 3", ""),
    ("mine --miner=", ""),
    ("mine --miner -", ""),
    ("mine --miner fill -", ""),
    ("mine --miner -- fill", ""),
    ("mine --miner fill --", ""),
    ("mine --min fill", ""),
    ("mine -miner fill", ""),
    ("mine --miner fill --rounds -5", ""),
    ("mine --miner fill --rounds=-5", ""),
    ("mine --miner fill --rounds +5", ""),
    ("mine --miner=fil", ""),
    ("mine fill --miner fill", ""),
    ("mine --miner fill --rounds 000000000000000000008", ""),
    ("mine --miner fill --rounds=0", ""),
    ("mine --miner=fill=x", ""),
    ("mine --miner fill --seed 1", ""),
    ("mine --=fill", ""),
    ("mine -h", ""),
    (
        "demo --seed 18446744073709551615 --voters 16384 --seats 512",
        "demo 18446744073709551615 16384 512",
    ),
    ("demo --seats=1 --seed=0 --voters=1", "demo 0 1 1"),
    ("demo --seed 1 --voters 1", ""),
    ("demo --seed 18446744073709551616 --voters 1 --seats 1", ""),
    ("demo --seed 1 --voters 16385 --seats 1", ""),
    ("demo --seed 1 --voters 1 --seats 513", ""),
    ("demo --seed 1 --voters 0 --seats 1", ""),
    ("demo --seed 1 --voters 1 --seats 0", ""),
    ("demo --seed 1 --voters 1 --seats 1 --seats 1", ""),
];

fn told(alloc: Global, command: &Option<Command>) -> Result<String, Fail> {
    let text = match *command {
        None => String::new(alloc),
        Some(Command::Replay) => format!(in alloc; "replay")?,
        Some(Command::Check) => format!(in alloc; "check")?,
        Some(Command::Pack) => format!(in alloc; "pack")?,
        Some(Command::Show) => format!(in alloc; "show")?,
        Some(Command::Checkpoint) => format!(in alloc; "checkpoint")?,
        Some(Command::Resume) => format!(in alloc; "resume")?,
        Some(Command::Pools) => format!(in alloc; "pools")?,
        Some(Command::Mine(miner)) => format!(in alloc; "mine {miner:?}")?,
        Some(
            Command::Demo {
                seed,
                voters,
                seats,
            },
        ) => format!(in alloc; "demo {seed} {voters} {seats}")?,
    };
    Ok(text)
}

fn words_of(alloc: Global, line: &str) -> Result<Vec<String>, Fail> {
    let mut words = Vec::new(alloc);
    words.push(String::from_str(alloc, "npos")?)?;
    for word in line.split(' ') {
        words.push(String::from_str(alloc, word)?)?;
    }
    Ok(words)
}

#[test]
fn each_law_is_called(_rt: HostRuntime) {
    laws::options_are_read_where_they_are_spelled();
}

#[test]
fn words_ask_for_their_commands(rt: HostRuntime) -> Result<(), Fail> {
    for (line, expected) in &WORDS {
        let words = words_of(rt.alloc(), line)?;
        let command = command_of(rt.alloc(), words.as_slice())?;
        let text = told(rt.alloc(), &command)?;
        assert_eq!(rt; text.as_str(), *expected);
    }
    Ok(())
}
