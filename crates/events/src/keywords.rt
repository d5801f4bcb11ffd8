// The fixed words of a line, compared byte by byte.
ghost use Rattle.std.specs.Prelude.{◌≡◌};
ghost use Rattle.events.specs.Keywords.{kind_of, keyword_of, literal_word};

use crate::shapes::{Keyword, LineKind, LiteralWord};
use words::same_bytes;

impl From<&[u8]> for LineKind {
    ghost from_gives = { λ w k. k ≡ kind_of w.now };

    fn from(word: &[u8]) -> LineKind {
        if same_bytes(word, b"[assign]") {
            LineKind::Assign
        } else if same_bytes(word, b"[decide-and-or]") {
            LineKind::DecideAndOr
        } else if same_bytes(word, b"[conflict]") {
            LineKind::Conflict
        } else if same_bytes(word, b"[push]") {
            LineKind::Push
        } else if same_bytes(word, b"[pop]") {
            LineKind::Pop
        } else if same_bytes(word, b"[begin-check]") {
            LineKind::BeginCheck
        } else {
            LineKind::Other
        }
    }
}

impl From<&[u8]> for Keyword {
    ghost from_gives = { λ w k. k ≡ keyword_of w.now };

    fn from(word: &[u8]) -> Keyword {
        if same_bytes(word, b"decision") {
            Keyword::Decision
        } else if same_bytes(word, b"axiom") {
            Keyword::Axiom
        } else if same_bytes(word, b"bin") {
            Keyword::Bin
        } else if same_bytes(word, b"clause") {
            Keyword::Clause
        } else if same_bytes(word, b"justification") {
            Keyword::Justification
        } else {
            Keyword::Unknown
        }
    }
}

impl From<&[u8]> for LiteralWord {
    ghost from_gives = { λ w k. k ≡ literal_word w.now };

    fn from(word: &[u8]) -> LiteralWord {
        if same_bytes(word, b"true") || same_bytes(word, b"false") {
            LiteralWord::Constant
        } else if same_bytes(word, b"(not") {
            LiteralWord::Not
        } else {
            LiteralWord::Id
        }
    }
}
