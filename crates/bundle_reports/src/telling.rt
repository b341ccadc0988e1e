//! The line of bytes that are refused.
ghost use Rattle.std.specs.Prelude.{◌≡◌, ◌++◌, OnOk};
ghost use Rattle.told_lines.specs.Texts.{Keeps};
ghost use Rattle.bundle_reports.specs.Texts.{fault_line, word_of};

use npos_base::NoMemory;
use scale_wire::fault::Why;
use told_lines::{Piece, tell};

fn word(why: Why) -> &'static str
    ensures { result.now ≡ word_of why }
{
    match why {
        Why::Short => "short",
        Why::NotShortest => "notshortest",
        Why::TooWide => "toowide",
        Why::BadTag => "badtag",
        Why::TooMany => "toomany",
        Why::Trailing => "trailing",
    }
}

/// Appends the line of bytes that are refused.
pub fn tell_fault(text: &mut Vec<u8>, at: u64, why: Why) -> Result<(), NoMemory>
    ensures text { OnOk result (text.new.items ≡ text.old.items ++ fault_line at why) }
    ensures kept { Keeps text.old.items text.new.items }
{
    tell(
        text,
        &[
            Piece::Words("fault "),
            Piece::Number(at),
            Piece::Words(" "),
            Piece::Words(word(why)),
            Piece::Words("\n"),
        ],
    )
}
