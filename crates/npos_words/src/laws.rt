//! What follows for all words. Each function does nothing, and its contract is the law.
ghost use Rattle.npos_words.specs.Laws.{NamesAreNames, ReadsWhatIsSpelled};

/// Options are read from words exactly where the words spell them, where names are not
/// empty and have no `=`; those of this program are so.
pub fn options_are_read_where_they_are_spelled()
    ensures read { ReadsWhatIsSpelled }
    ensures names { NamesAreNames }
{}
