// The words of a line: runs of bytes between separators.
#![tactic(auto)]

ghost use Rattle.std.specs.Prelude.{◌≡◌, ◌≤◌, length};
ghost use Rattle.std.specs.List.{prefix_len};
ghost use Rattle.std.specs.Str.{bytes_eq};
ghost use Rattle.words.specs.Words.{separator, letter, blanks, next_word, Cut};

mod rest;

pub use rest::{Word, Words};

// Whether two words are equal, byte by byte. A fixed word is an array, which `==` would want as a slice at each place.
pub fn same_bytes(word: &[u8], text: &[u8]) -> bool
    ensures { result ≡ bytes_eq word.now text.now }
{
    word == text
}

fn is_separator(b: u8) -> bool
    ensures { result ≡ separator b }
{
    matches!(b, b' ' | b'\t' | b'\n' | 0x0C | b'\r')
}

// How many separators stand at the front.
fn blank_len(text: &[u8]) -> usize
    ensures value { result ≡ blanks text.now }
    ensures within { result ≤ length text.now }
{
    text.iter().take_while(|b| is_separator(**b)).count()
}

// How many letters stand at the front.
fn word_len(text: &[u8]) -> usize
    ensures value { result ≡ prefix_len letter text.now }
    ensures within { result ≤ length text.now }
{
    text.iter().take_while(|b| !is_separator(**b)).count()
}

// The next word, which is empty where none is left, and the rest of the line.
#[tactic(auto, using(crate::proofs::Leads::next_word_cuts))]
pub fn next_word(line: &[u8]) -> (&[u8], &[u8])
    ensures value { (result.0.now, result.1.now) ≡ next_word line.now }
    ensures laws { Cut line.now (next_word line.now).0 (next_word line.now).1 }
{
    let (_, text) = line.split_at(blank_len(line));
    text.split_at(word_len(text))
}
