// Lines of an input that comes in pieces: each is handed out as a part of the piece, or of the carry memory where it began earlier.
#![tactic(auto)]

ghost use Rattle.std.specs.Prelude.{◌≡◌, ◌≤◌, ℕ, List, [], length, take, Some};
ghost use Rattle.std.specs.Option.{option_to_list};
ghost use Rattle.pieces.specs.Reading.{HasRoom, kept, grown, handed, next_line, Hands, last_line, due, Reads};
ghost use Rattle.pieces.specs.Reader.{part, pending, limit, seen, stepped, Onward};

use lines::line_len;
use std::marker::Model;

#[derive(Clone, Copy, Debug, PartialEq, Eq)]
pub enum Source {
    Piece,
    Carry,
}

#[derive(Clone, Copy, Debug, PartialEq, Eq)]
pub struct Span {
    source: Source,
    end: usize,
}

// A line has more bytes than the carry memory.
#[derive(Clone, Copy, Debug, PartialEq, Eq)]
pub struct TooLong;

// `held` bytes of the line at hand came in earlier pieces; without a number, the line is too long.
#[derive(Drop)]
pub struct LineReader<'c> {
    carry: &'c mut [u8],
    held: Option<usize>,
}

impl<'c> Model for LineReader<'c> {
    ghost use Rattle.pieces.specs.Reading.{Carried};
    ghost use Rattle.pieces.specs.Held.{pending_in, FitsIn};

    ghost Value = { Carried };

    ghost view = { λ r. record { carry = r.carry.now; at_hand = pending_in r.carry.now r.held } };

    ghost invariant = { λ r. FitsIn r.carry.now r.held };
}

impl<'c> LineReader<'c> {
    // A line may have as many bytes as the carry memory.
    pub fn new(carry: &'c mut [u8]) -> Self
        ensures value { pending result ≡ kept [] }
        ensures room { limit result ≡ length carry.old }
    {
        LineReader {
            carry,
            held: Some(0),
        }
    }

    // The bytes of a span, in the text that the `join` which found it was given; none where it does not lie within.
    pub fn line<'b>(&'b self, text: &'b [u8], span: Span) -> &'b [u8]
        ensures value { result.now ≡ part span text.now self.now.carry }
        ensures fits { HasRoom (limit self.now) (pending self.now) }
    {
        let Span { source, end } = span;
        let whole = match source {
            Source::Piece => text,
            Source::Carry => &*self.carry,
        };
        whole.get(..end).unwrap_or(&[])
    }

    // Looks for the end of the line at hand in what is left of a piece: what is found, and what is left then.
    #[tactic(auto, using(crate::proofs::Due::steps))]
    pub fn join<'p>(&mut self, text: &'p [u8]) -> (Option<Result<Span, TooLong>>, &'p [u8])
        ensures value { stepped result text.now self.new ≡ next_line (limit self.old) (pending self.old) text.now }
        ensures items { Hands (limit self.old) (pending self.old) text.now (stepped result text.now self.new) }
        ensures room { limit self.new ≡ limit self.old }
        ensures len { Onward result.0 result.1.now text.now }
        ensures fits { HasRoom (limit self.new) (pending self.new) }
        ensures laws { Reads (limit self.old) }
    {
        let end = line_len(text);
        if end == text.len() {
            self.keep(text);
            return (None, &[]);
        }
        let found = self.end_line(text, end);
        (Some(found), &text[end + 1..])
    }

    // At the input's end: the line at hand, if there is one.
    #[tactic(auto, using(crate::proofs::Carries::last_handed, crate::proofs::Due::due_last))]
    pub fn finish(&mut self) -> Option<Result<Span, TooLong>>
        ensures value { (text : List ℕ) → seen result text self.new ≡ last_line (limit self.old) (pending self.old) }
        ensures after { pending self.new ≡ kept [] }
        ensures room { limit self.new ≡ limit self.old }
        ensures fits { HasRoom (limit self.new) (pending self.new) }
        ensures items { due (limit self.old) (pending self.old) [] ≡ option_to_list (seen result [] self.new) }
    {
        if self.held == Some(0) {
            return None;
        }
        Some(self.hand_out())
    }

    // The line at hand, which ends with the first `end` bytes of the text.
    fn end_line(&mut self, text: &[u8], end: usize) -> Result<Span, TooLong>
        requires { end ≤ length text.now }
        ensures value { seen (Some result) text.now self.new ≡ Some (handed (grown (limit self.old) (pending self.old) (take end text.now))) }
        ensures after { pending self.new ≡ kept [] }
        ensures room { limit self.new ≡ limit self.old }
    {
        if self.held == Some(0) && end <= self.carry.len() {
            return Ok(Span {
                source: Source::Piece,
                end,
            });
        }
        self.keep(&text[..end]);
        self.hand_out()
    }

    // The line at hand, of which nothing is held then.
    fn hand_out(&mut self) -> Result<Span, TooLong>
        ensures value { (text : List ℕ) → seen (Some result) text self.new ≡ Some (handed (pending self.old)) }
        ensures after { pending self.new ≡ kept [] }
        ensures room { limit self.new ≡ limit self.old }
    {
        let end = self.held.replace(0).ok_or(TooLong)?;
        Ok(Span {
            source: Source::Carry,
            end,
        })
    }

    // Adds bytes to the line at hand.
    fn keep(&mut self, bytes: &[u8])
        ensures after { pending self.new ≡ grown (limit self.old) (pending self.old) bytes.now }
        ensures room { limit self.new ≡ limit self.old }
    {
        let Some(held) = self.held else {
            return;
        };
        if bytes.len() > self.carry.len() - held {
            self.held = None;
            return;
        }
        let end = held + bytes.len();
        self.carry[held..end].copy_from_slice(bytes);
        self.held = Some(end);
    }
}

#[cfg(test)]
mod tests;
