// Each line of a log in pieces is answered as it ends.
ghost use Rattle.std.specs.Prelude.{◌≡◌, ℕ, List, [], length, Some};
ghost use Rattle.std.specs.Option.{option_map};
ghost use Rattle.pieces.specs.Reader.{seen};
ghost use Rattle.pieces.specs.Reading.{HasRoom, kept};
ghost use Rattle.checker.specs.Answers.{answer_to, answers, mode_of, limit_of, counts_of, at_hand_of, checked, next_answer, last_answer, GoesOn, KeepsRules, HasRead};
ghost use Rattle.checker.specs.Tallies.{tally_of, noted_after};

use crate::tally::Tally;
use events::{LineKind, Mode, check_line};
use pieces::{LineReader, Span, TooLong};
use refusal::Refusal;

#[derive(Drop)]
pub struct LogChecker<'c> {
    reader: LineReader<'c>,
    mode: Mode,
    tally: Tally,
}

impl<'c> LogChecker<'c> {
    // A line may have as many bytes as the carry memory.
    pub fn new(carry: &'c mut [u8], mode: Mode) -> Self
        ensures room { limit_of result ≡ length carry.old }
        ensures mode { mode_of result ≡ mode }
        ensures tally { counts_of result ≡ tally_of [] }
        ensures empty { at_hand_of result ≡ kept [] }
        ensures reads { HasRead result [] [] }
    {
        LogChecker {
            reader: LineReader::new(carry),
            mode,
            tally: Tally::new(),
        }
    }

    // How many lines of each kind there were so far.
    pub fn tally(&self) -> Tally
        ensures { result ≡ counts_of self.now }
    {
        self.tally
    }

    // The answer to the next line that ends in what is left of a piece, and what is left then; nothing where no line ends there.
    #[tactic(auto, using(crate::proofs::Owed::reads_next))]
    pub fn next<'p>(&mut self, text: &'p [u8]) -> (Option<Result<LineKind, Refusal>>, &'p [u8])
        ensures value { checked result self.new ≡ next_answer self.old text.now }
        ensures after { counts_of self.new ≡ noted_after (counts_of self.old) result.0 }
        ensures rules { KeepsRules self.old self.new }
        ensures len { GoesOn result.0 result.1.now text.now }
        ensures fits { HasRoom (limit_of self.new) (at_hand_of self.new) }
        ensures reads { (whole : List ℕ) → HasRead self.old whole text.now → HasRead self.new whole result.1.now }
    {
        let (found, left) = self.reader.join(text);
        (self.noted(text, found), left)
    }

    // The answer to the last line, if the input ended within one.
    #[tactic(auto, using(crate::proofs::Owed::reads_all))]
    pub fn finish(&mut self) -> Option<Result<LineKind, Refusal>>
        ensures value { result ≡ last_answer self.old }
        ensures after { counts_of self.new ≡ noted_after (counts_of self.old) result }
        ensures rules { KeepsRules self.old self.new }
        ensures empty { at_hand_of self.new ≡ kept [] }
        ensures fits { HasRoom (limit_of self.new) (at_hand_of self.new) }
        ensures reads { (whole : List ℕ) → HasRead self.old whole [] → counts_of self.new ≡ tally_of (answers (mode_of self.old) (limit_of self.old) whole) }
    {
        let found = self.reader.finish();
        self.noted(&[], found)
    }

    // The answer to what the reader found, which is counted.
    fn noted(
        &mut self,
        text: &[u8],
        found: Option<Result<Span, TooLong>>,
    ) -> Option<Result<LineKind, Refusal>>
        ensures value { result ≡ option_map (answer_to self.old.mode) (seen found text.now self.old.reader) }
        ensures after { counts_of self.new ≡ noted_after (counts_of self.old) result }
        ensures mode { self.new.mode ≡ self.old.mode }
        ensures reader { self.new.reader ≡ self.old.reader }
    {
        let answer = self.answer(text, found?);
        self.tally.note(answer);
        Some(answer)
    }

    // The answer to a line.
    fn answer(&self, text: &[u8], line: Result<Span, TooLong>) -> Result<LineKind, Refusal>
        ensures { Some result ≡ option_map (answer_to self.now.mode) (seen (Some line) text.now self.now.reader) }
    {
        let span = line.map_err(|_| Refusal::LineTooLong)?;
        check_line(self.reader.line(text, span), self.mode)
    }
}
