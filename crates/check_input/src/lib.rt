// Tells which lines of an input are malformed, where and why, and how many lines of each kind it has.
#![tactic(auto)]

ghost use Rattle.std.specs.Prelude.{◌≡◌, ℕ, List, [], ◌++◌, OnOk};
ghost use Rattle.std.specs.Option.{option_copied};
ghost use Rattle.checker.specs.Answers.{answers, mode_of, limit_of, counts_of, KeepsRules, HasRead};
ghost use Rattle.checker.specs.Tallies.{tally_of};
ghost use Rattle.check_input.specs.Modes.{mode_for};

use checker::{LogChecker, RefusedLine};
use events::{LineKind, Mode};
use refusal::Refusal;
use std::io::{self, Read};

// A longer line is refused.
const LONGEST_LINE: usize = 1024;

const PIECE: usize = 4096;

// The mode that the arguments ask for: bare without one, and prefixed by `--prefixed` alone.
pub fn mode_for(first: Option<&str>, second: Option<&str>) -> Option<Mode>
    ensures { result ≡ mode_for (option_copied first.entry) (option_copied second.entry) }
{
    match (first, second) {
        (None, _) => Some(Mode::Bare),
        (Some("--prefixed"), None) => Some(Mode::Prefixed),
        _ => None,
    }
}

// Prints a line for each refused line, and then the tally.
pub fn check_input<R: Read>(rt: &impl Print, input: &mut R, mode: Mode) -> io::Result<()> {
    let mut carry = [0u8; LONGEST_LINE];
    let mut checker = LogChecker::new(&mut carry, mode);
    let mut piece = [0u8; PIECE];
    // Every loop is proved to end, so the pieces are counted.
    for _ in 0..u64::MAX {
        let count = input.read(&mut piece)?;
        if count == 0 {
            break;
        }
        check_piece(rt, &mut checker, &piece[..count])?;
    }
    check_end(rt, &mut checker)?;
    rt.println(checker.tally())
}

// All lines that end in the piece.
fn check_piece(rt: &impl Print, checker: &mut LogChecker<'_>, piece: &[u8]) -> io::Result<()>
    ensures rules { KeepsRules checker.old checker.new }
    ensures reads { OnOk result ((whole : List ℕ) → HasRead checker.old whole [] → HasRead checker.new (whole ++ piece.now) []) }
{
    let mut text = piece;
    while let (Some(answer), left) = checker.next(text) {
        text = left;
        print_refused(rt, checker.tally().lines, answer)?;
    }
    Ok(())
}

// The last line, where the input does not end in 0x0A.
fn check_end(rt: &impl Print, checker: &mut LogChecker<'_>) -> io::Result<()>
    ensures { (whole : List ℕ) → HasRead checker.old whole [] → counts_of checker.new ≡ tally_of (answers (mode_of checker.old) (limit_of checker.old) whole) }
{
    if let Some(answer) = checker.finish() {
        print_refused(rt, checker.tally().lines, answer)?;
    }
    Ok(())
}

fn print_refused(rt: &impl Print, line: u64, answer: Result<LineKind, Refusal>) -> io::Result<()> {
    if let Err(refusal) = answer {
        rt.println(RefusedLine { line, refusal })?;
    }
    Ok(())
}
