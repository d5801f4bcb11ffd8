// Literals, read from the words of a line.
ghost use Rattle.std.specs.Prelude.{◌≡◌};
ghost use Rattle.events.specs.declared.shapes.LineKind.TheVariants as LineKind;
ghost use Rattle.words.specs.Left.{left, line_of, end, word_of};
ghost use Rattle.events.specs.Laws.{NamedPart};
ghost use Rattle.events.specs.Lines.{passed};
ghost use Rattle.events.specs.Literals.{after_not, named, variable, bare, p_literal, prefixed, solver, next_literal, literals, given, Shorter};
ghost use Rattle.events.specs.Shown.{read_of, word_read, named_read, next_shown};

use crate::shapes::{LiteralWord, Literals, Mode, NamedLiteral, SolverLiteral};
use numbers::number_u32;
use refusal::Refusal;
use words::{Word, Words, same_bytes};

// The word that follows `(not`, without the `)` that it must end in.
fn closed_word<'a>(words: &mut Words<'a>) -> Result<Word<'a>, Refusal>
    ensures value { word_read result words.new ≡ after_not (end words.old) (left words.old) }
    ensures same { line_of words.new ≡ line_of words.old }
{
    let Some(Word { letters, place }) = words.next() else {
        return Err(Refusal::UnexpectedNewline { place: words.end() });
    };
    let Some(letters) = letters.strip_suffix(b")") else {
        return Err(Refusal::TupleMissingParens { place });
    };
    Ok(Word { letters, place })
}

// The next named literal, or nothing where no word is left.
pub(crate) fn named_literal<'a>(words: &mut Words<'a>) -> Result<Option<NamedLiteral<'a>>, Refusal>
    ensures value { named_read result words.new ≡ named (end words.old) (left words.old) }
    ensures same { line_of words.new ≡ line_of words.old }
{
    let Some(word) = words.next() else {
        return Ok(None);
    };
    match LiteralWord::from(word.letters) {
        LiteralWord::Constant => Err(Refusal::BoolLiteral { place: word.place }),
        LiteralWord::Not => {
            let id = closed_word(words)?;
            Ok(Some(NamedLiteral { id, value: false }))
        }
        LiteralWord::Id => Ok(Some(NamedLiteral {
            id: word,
            value: true,
        })),
    }
}

// A number from 1 to 4,294,967,295.
fn variable(digits: &[u8], value: bool, place: usize) -> Result<SolverLiteral, Refusal>
    ensures { result ≡ variable place value digits.now }
{
    match number_u32(digits) {
        Some(number) if number > 0 => Ok(SolverLiteral::Variable { number, value }),
        _ => Err(Refusal::InvalidBoolLiteral { place }),
    }
}

// In bare mode one `-` may precede the number.
fn bare_literal(word: Word) -> Result<SolverLiteral, Refusal>
    ensures { result ≡ bare (word_of word.entry) }
{
    match word.letters.strip_prefix(b"-") {
        Some(digits) => variable(digits, false, word.place),
        None => variable(word.letters, true, word.place),
    }
}

// In prefixed mode the number follows `p`.
fn p_literal(word: Word, value: bool) -> Result<SolverLiteral, Refusal>
    ensures { result ≡ p_literal value (word_of word.entry) }
{
    let Some(digits) = word.letters.strip_prefix(b"p") else {
        return Err(Refusal::BoolLiteralNotP { place: word.place });
    };
    variable(digits, value, word.place)
}

fn prefixed_literal(word: Word, rest: &mut Words) -> Result<SolverLiteral, Refusal>
    ensures { read_of result rest.new ≡ prefixed (end rest.old) (word_of word.entry) (left rest.old) }
{
    if !same_bytes(word.letters, b"(not") {
        return p_literal(word, true);
    }
    let inner = closed_word(rest)?;
    p_literal(inner, false)
}

// The next solver literal.
pub(crate) fn solver_literal(words: &mut Words, mode: Mode) -> Result<SolverLiteral, Refusal>
    ensures { read_of result words.new ≡ solver mode (end words.old) (left words.old) }
{
    let Some(word) = words.next() else {
        return Err(Refusal::UnexpectedNewline { place: words.end() });
    };
    if same_bytes(word.letters, b"true") {
        return Ok(SolverLiteral::Constant(true));
    }
    if same_bytes(word.letters, b"false") {
        return Ok(SolverLiteral::Constant(false));
    }
    match mode {
        Mode::Bare => bare_literal(word),
        Mode::Prefixed => prefixed_literal(word, words),
    }
}

impl<'a> Literals<'a> {
    fn step(&mut self) -> Result<Option<NamedLiteral<'a>>, Refusal>
        ensures value { (next_shown result, left self.new.rest) ≡ next_literal (end self.old.rest) (left self.old.rest) }
        ensures same { line_of self.new.rest ≡ line_of self.old.rest }
    {
        let mut rest = self.rest;
        let Some(literal) = named_literal(&mut rest)? else {
            return Ok(None);
        };
        self.rest = rest;
        Ok(Some(literal))
    }

    // The next literal, or nothing at the line's end. At a fault the cursor stays, so it is no `Iterator`, which would have no end.
    #[tactic(auto, using(crate::proofs::Cursors::step_given, crate::proofs::Cursors::step_fewer))]
    pub fn next(&mut self) -> Result<Option<NamedLiteral<'a>>, Refusal>
        ensures value { (next_shown result, left self.new.rest) ≡ next_literal (end self.old.rest) (left self.old.rest) }
        ensures same { line_of self.new.rest ≡ line_of self.old.rest }
        ensures laws { literals (end self.old.rest) (left self.old.rest) ≡ given (next_shown result) (literals (end self.old.rest) (left self.new.rest)) }
        ensures names { NamedPart (line_of self.old.rest) (next_shown result) }
        ensures shorter { Shorter (next_shown result) (left self.new.rest) (left self.old.rest) }
    {
        self.step()
    }
}

// All literals that are left, looked at one by one.
pub(crate) fn check_literals(mut list: Literals) -> Result<(), Refusal>
    ensures { passed LineKind.Conflict result ≡ passed LineKind.Conflict (literals (end list.entry.rest) (left list.entry.rest)) }
{
    while let Some(_literal) = list.next()? {}
    Ok(())
}
