// Why a literal was assigned, read from the words after it.
ghost use Rattle.std.specs.Prelude.{◌≡◌};
ghost use Rattle.words.specs.Left.{left, end};
ghost use Rattle.events.specs.Reasons.{ended, decided, theory, reason_of};

use crate::literals::solver_literal;
use crate::shapes::{Keyword, Mode, Reason};
use numbers::number_i32;
use refusal::Refusal;
use words::{Words, same_bytes};

// No word may be left.
pub(crate) fn expect_completed(mut words: Words) -> Result<(), Refusal>
    ensures { result ≡ ended tt (left words.entry) }
{
    let Some(word) = words.next() else {
        return Ok(());
    };
    Err(Refusal::ExpectedNewline { place: word.place })
}

fn decision(mut words: Words) -> Result<Reason, Refusal>
    ensures { result ≡ decided (end words.entry) (left words.entry) }
{
    let Some(word) = words.next() else {
        return Err(Refusal::UnexpectedNewline { place: words.end() });
    };
    if !same_bytes(word.letters, b"axiom") {
        return Err(Refusal::DecisionNotAxiom { place: word.place });
    }
    expect_completed(words)?;
    Ok(Reason::Decision)
}

fn theory(mut words: Words) -> Result<Reason, Refusal>
    ensures { result ≡ theory (end words.entry) (left words.entry) }
{
    let Some(word) = words.next() else {
        return Err(Refusal::UnexpectedNewline { place: words.end() });
    };
    let place = word.place;
    let Some(digits) = word.letters.strip_suffix(b":") else {
        return Err(Refusal::MissingColonJustification { place });
    };
    let Some(number) = number_i32(digits) else {
        return Err(Refusal::InvalidTheoryId { place });
    };
    Ok(Reason::Theory(number))
}

// The reason that the words after an assign's literal tell.
pub fn read_reason(mut words: Words, mode: Mode) -> Result<Reason, Refusal>
    ensures { result ≡ reason_of mode (end words.entry) (left words.entry) }
{
    let Some(word) = words.next() else {
        return Err(Refusal::UnexpectedNewline { place: words.end() });
    };
    match Keyword::from(word.letters) {
        Keyword::Decision => decision(words),
        Keyword::Axiom => {
            expect_completed(words)?;
            Ok(Reason::Axiom)
        }
        Keyword::Bin => {
            let other = solver_literal(&mut words, mode)?;
            expect_completed(words)?;
            Ok(Reason::Bin(other))
        }
        Keyword::Clause => {
            let first = solver_literal(&mut words, mode)?;
            Ok(Reason::Clause(first))
        }
        Keyword::Justification => theory(words),
        Keyword::Unknown => Err(Refusal::UnknownJustification { place: word.place }),
    }
}
