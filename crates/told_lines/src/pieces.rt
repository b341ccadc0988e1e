//! The pieces of lines.
ghost use Rattle.std.specs.Prelude.{◌≡◌, ◌++◌, flat_map, OnOk};
ghost use Rattle.told_lines.specs.Texts.{account_text, number_text, Keeps};
ghost use Rattle.told_lines.specs.Pieces.{piece_text};

use crate::accounts::write_account;
use itoa::Buffer;
use npos_base::{AccountId, NoMemory};

/// A piece of a line.
#[derive(Clone, Copy)]
pub enum Piece<'a> {
    /// Words, as they are. A line ends with a newline, which is among the words.
    Words(&'a str),
    /// A number, in decimal.
    Number(u64),
    /// A number in decimal, behind a blank.
    Detail(u128),
    /// An account: its 32 bytes, each as two digits in hexadecimal, in lower case.
    Account(AccountId),
}

/// Appends an account.
#[tactic(auto, using(crate::proofs::KeptLemmas::kept_behind, crate::proofs::KeptLemmas::kept_on))]
fn tell_account(text: &mut Vec<u8>, who: AccountId) -> Result<(), NoMemory>
    ensures text { OnOk result (text.new.items ≡ text.old.items ++ account_text who) }
    ensures kept { Keeps text.old.items text.new.items }
{
    let mut digits = [0; 64];
    write_account(&mut digits, who);
    text.extend_from_slice(&digits)?;
    Ok(())
}

/// Appends a number behind a blank.
#[tactic(auto, using(crate::proofs::KeptLemmas::kept_behind, crate::proofs::KeptLemmas::kept_on))]
fn tell_detail(text: &mut Vec<u8>, number: u128) -> Result<(), NoMemory>
    ensures text { OnOk result (text.new.items ≡ text.old.items ++ number_text number) }
    ensures kept { Keeps text.old.items text.new.items }
{
    text.extend_from_slice(b" ")?;
    text.extend_from_slice(Buffer::new().format(number).as_bytes())?;
    Ok(())
}

/// Appends one piece.
#[tactic(auto, using(crate::proofs::KeptLemmas::kept_behind, crate::proofs::KeptLemmas::kept_on))]
fn tell_piece(text: &mut Vec<u8>, piece: &Piece<'_>) -> Result<(), NoMemory>
    ensures text { OnOk result (text.new.items ≡ text.old.items ++ piece_text piece.now) }
    ensures kept { Keeps text.old.items text.new.items }
{
    match piece {
        Piece::Words(words) => text.extend_from_slice(words.as_bytes())?,
        Piece::Number(number) => text.extend_from_slice(Buffer::new().format(*number).as_bytes())?,
        Piece::Detail(number) => tell_detail(text, *number)?,
        Piece::Account(who) => tell_account(text, *who)?,
    }
    Ok(())
}

/// Appends the pieces in order. Where memory is refused, the text may end behind any of them.
#[tactic(auto, using(crate::proofs::KeptLemmas::kept_behind, crate::proofs::KeptLemmas::kept_on))]
pub fn tell(text: &mut Vec<u8>, pieces: &[Piece<'_>]) -> Result<(), NoMemory>
    ensures text { OnOk result (text.new.items ≡ text.old.items ++ flat_map piece_text pieces.now) }
    ensures kept { Keeps text.old.items text.new.items }
{
    for piece in pieces {
        tell_piece(text, piece)?;
    }
    Ok(())
}
