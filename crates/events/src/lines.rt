// A line of a trace as one event.
ghost use Rattle.std.specs.Prelude.{◌≡◌};
ghost use Rattle.words.specs.Left.{left, line_of, end};
ghost use Rattle.events.specs.Lines.{integer, by_kind, event_of, line_kind};
ghost use Rattle.events.specs.Laws.{Names, NumberedAlike, Steady, Reached};
ghost use Rattle.events.specs.Shown.{read_of, shown, OfLine};
ghost use Rattle.events.specs.Worked.{Worked};

use crate::literals::{check_literals, named_literal};
use crate::reasons::{expect_completed, read_reason};
use crate::shapes::{Event, LineKind, Literals, Mode};
use numbers::number_u64;
use refusal::Refusal;
use words::Words;

// A number of 64 bits, not below the least.
fn integer(words: &mut Words, least: u64) -> Result<u64, Refusal>
    ensures value { read_of result words.new ≡ integer least (end words.old) (left words.old) }
    ensures same { line_of words.new ≡ line_of words.old }
{
    let Some(word) = words.next() else {
        return Err(Refusal::UnexpectedNewline { place: words.end() });
    };
    match number_u64(word.letters) {
        Some(number) if number >= least => Ok(number),
        _ => Err(Refusal::InvalidFrameInteger { place: word.place }),
    }
}

fn assign<'a>(mut words: Words<'a>) -> Result<Event<'a>, Refusal>
    ensures value { shown result ≡ by_kind LineKind.Assign (end words.entry) (left words.entry) }
    ensures same { OfLine (line_of words.entry) result }
{
    let Some(literal) = named_literal(&mut words)? else {
        return Err(Refusal::UnexpectedNewline { place: words.end() });
    };
    Ok(Event::Assign {
        literal,
        rest: words,
    })
}

fn push<'a>(mut words: Words<'a>) -> Result<Event<'a>, Refusal>
    ensures value { shown result ≡ by_kind LineKind.Push (end words.entry) (left words.entry) }
    ensures same { OfLine (line_of words.entry) result }
{
    let scope = integer(&mut words, 0)?;
    expect_completed(words)?;
    Ok(Event::Push { scope })
}

fn pop<'a>(mut words: Words<'a>) -> Result<Event<'a>, Refusal>
    ensures value { shown result ≡ by_kind LineKind.Pop (end words.entry) (left words.entry) }
    ensures same { OfLine (line_of words.entry) result }
{
    let count = integer(&mut words, 1)?;
    let scope = integer(&mut words, 0)?;
    expect_completed(words)?;
    Ok(Event::Pop { count, scope })
}

fn begin_check<'a>(mut words: Words<'a>) -> Result<Event<'a>, Refusal>
    ensures value { shown result ≡ by_kind LineKind.BeginCheck (end words.entry) (left words.entry) }
    ensures same { OfLine (line_of words.entry) result }
{
    let scope = integer(&mut words, 0)?;
    Ok(Event::BeginCheck { scope })
}

// What a line says, as far as it is read before a book is asked.
#[tactic(auto, using(crate::proofs::Lawful::event_named, crate::proofs::Lawful::steady_event, crate::proofs::Reach::reached, crate::proofs::Lawful::worked))]
pub fn read_event(line: &[u8]) -> Result<Event<'_>, Refusal>
    ensures value { shown result ≡ event_of line.now }
    ensures same { OfLine line.now result }
    ensures names { Names line.now (event_of line.now) }
    ensures steady { Steady event_of }
    ensures reached { Reached }
    ensures worked { Worked }
{
    let mut rest = Words::of(line);
    let Some(word) = rest.next() else {
        return Ok(Event::Other);
    };
    match LineKind::from(word.letters) {
        LineKind::Other => Ok(Event::Other),
        LineKind::Assign => assign(rest),
        LineKind::DecideAndOr => Ok(Event::DecideAndOr),
        LineKind::Conflict => Ok(Event::Conflict {
            literals: Literals { rest },
        }),
        LineKind::Push => push(rest),
        LineKind::Pop => pop(rest),
        LineKind::BeginCheck => begin_check(rest),
    }
}

// The kind of a line, once all of it is read; no book is asked.
#[tactic(auto, using(crate::proofs::Lawful::kind_numbered, crate::proofs::Lawful::steady_kind))]
pub fn check_line(line: &[u8], mode: Mode) -> Result<LineKind, Refusal>
    ensures value { result ≡ line_kind mode line.now }
    ensures numbers { NumberedAlike mode line.now }
    ensures steady { Steady (line_kind mode) }
{
    match read_event(line)? {
        Event::Other => Ok(LineKind::Other),
        Event::Assign { rest, .. } => {
            read_reason(rest, mode)?;
            Ok(LineKind::Assign)
        }
        Event::DecideAndOr => Ok(LineKind::DecideAndOr),
        Event::Conflict { literals } => {
            check_literals(literals)?;
            Ok(LineKind::Conflict)
        }
        Event::Push { .. } => Ok(LineKind::Push),
        Event::Pop { .. } => Ok(LineKind::Pop),
        Event::BeginCheck { .. } => Ok(LineKind::BeginCheck),
    }
}
