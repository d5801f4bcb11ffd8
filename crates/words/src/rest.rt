// What is left of a line, which knows its place there.
ghost use Rattle.std.specs.Prelude.{◌≡◌, ◌≤◌, length, ⊤};
ghost use Rattle.std.specs.List.{AllByRecursion};
ghost use Rattle.std.specs.Iterator.{YieldsFirstBy, MakesProgress, item_count};
ghost use Rattle.words.specs.Words.{words, words_by, Stands};

use crate::next_word;

// A word and the place of its first byte in the line.
#[derive(Clone, Copy, Debug, PartialEq, Eq)]
pub struct Word<'a> {
    pub letters: &'a [u8],
    pub place: usize,
}

// A line and the place in it from which on it is still to be read.
#[derive(Clone, Copy, Debug, PartialEq, Eq)]
pub struct Words<'a> {
    line: &'a [u8],
    place: usize,
    ghost within: { place ≤ length line.now },
}

impl<'a> Words<'a> {
    ghost use Rattle.words.specs.Left.{left, line_of, end};

    // All words of a line.
    pub fn of(line: &'a [u8]) -> Self
        ensures value { left result ≡ words 0 line.now }
        ensures same { line_of result ≡ line.now }
    {
        Words { line, place: 0 }
    }

    // The line's length: the place where a word is missing.
    pub fn end(self) -> usize
        ensures { result ≡ end self.entry }
    {
        self.line.len()
    }

    // The letters of the next word, empty where none is left, and the place after it.
    fn first(self) -> (&'a [u8], usize)
        ensures value { words_by (line_of self.entry) result.0.now result.1 ≡ left self.entry }
        ensures letters { length result.0.now ≤ result.1 }
        ensures within { result.1 ≤ end self.entry }
        ensures parts { AllByRecursion (Stands 0 (line_of self.entry)) (left self.entry) }
    {
        let line = self.line;
        let (_, text) = line.split_at(self.place);
        let (letters, rest) = next_word(text);
        (letters, line.len() - rest.len())
    }
}

// The words that are left, from the first on.
impl<'a> Iterator for Words<'a> {
    ghost use Rattle.words.specs.Left.{left, line_of, word_of, Part};

    type Item = Word<'a>;

    ghost next_gives = { YieldsFirstBy word_of left };

    ghost remaining = { item_count left };

    #[tactic(auto, using(crate::proofs::Left::fewer))]
    fn next(&mut self) -> Option<Word<'a>>
        ensures same { line_of self.new ≡ line_of self.old }
        ensures parts { Part (line_of self.old) result }

        // What the trait asks.
        ensures steps { YieldsFirstBy word_of left self.old result self.new }
        ensures goes { MakesProgress (λ _. ⊤) (item_count left) self.old result self.new }
    {
        let (letters, after) = self.first();
        if letters.is_empty() {
            return None;
        }
        self.place = after;
        let place = after - letters.len();
        Some(Word { letters, place })
    }
}
