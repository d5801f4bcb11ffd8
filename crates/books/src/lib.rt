// Books: which term an identifier means.
//
// A book is a map from byte strings to the numbers of terms. To ask may change the book, but never the map.
#![tactic(auto)]

ghost use Rattle.std.specs.Prelude.{◌≡◌, ℕ, List, Option as Maybe};
ghost use Rattle.std.specs.List.{position};
ghost use Rattle.std.specs.Str.{bytes_eq};
ghost use Rattle.lines.specs.Lines.{split};
ghost use Rattle.books.specs.Terms.{shape, numbered, NumberedLaws, listed, ListedLaws};

use lines::Lines;

pub trait Book {
    ghost terms: { Self → List ℕ → Maybe ℕ };

    fn term(&mut self, id: &[u8]) -> Option<usize>
        ensures value { result ≡ terms self.old id.now }
        ensures same { terms self.new ≡ terms self.old };
}

// `#` and a number below the limit, with no zero in front of another digit, means that number.
#[derive(Clone, Copy, Debug, PartialEq, Eq)]
pub struct Numbered {
    pub limit: usize,
}

impl Numbered {
    #[tactic(auto, using(crate::proofs::Ids::numbered_laws))]
    pub fn new(limit: usize) -> Self
        ensures value { result.limit ≡ limit }
        ensures laws { NumberedLaws limit }
    {
        Numbered { limit }
    }
}

impl Book for Numbered {
    ghost terms = { λ b. numbered b.limit };

    fn term(&mut self, id: &[u8]) -> Option<usize> {
        number_of(self.limit, id)
    }
}

fn number_of(limit: usize, id: &[u8]) -> Option<usize>
    ensures { result ≡ numbered limit id.now }
{
    if limit == 0 || !is_numbered(id) {
        return None;
    }
    let term = numbers::digits(&id[1..], (limit - 1) as u64)?;
    Some(term as usize)
}

fn is_numbered(id: &[u8]) -> bool
    ensures { result ≡ shape id.now }
{
    id.len() > 1 && id[0] == b'#' && (id.len() == 2 || id[1] != b'0')
}

// An identifier that is not empty means the place of the first line of the text that equals it.
#[derive(Clone, Copy, Debug, PartialEq, Eq)]
pub struct Listed<'a> {
    pub text: &'a [u8],
}

impl<'a> Listed<'a> {
    pub fn new(text: &'a [u8]) -> Self
        ensures value { result.text.now ≡ text.now }
        ensures laws { ListedLaws text.now }
    {
        Listed { text }
    }
}

impl<'a> Book for Listed<'a> {
    ghost terms = { λ b. listed b.text.now };

    fn term(&mut self, id: &[u8]) -> Option<usize> {
        place_of(self.text, id)
    }
}

#[tactic(auto, using(crate::proofs::Places::listed_by))]
fn place_of(text: &[u8], id: &[u8]) -> Option<usize>
    ensures { result ≡ listed text.now id.now }
{
    if id.is_empty() {
        return None;
    }
    line_place(text, id)
}

// The place of the first line that equals the identifier.
fn line_place(text: &[u8], id: &[u8]) -> Option<usize>
    ensures { result ≡ position (λ l. bytes_eq l id.now) (split text.now) }
{
    Lines::of(text).position(|line| line == id)
}

#[cfg(test)]
mod tests {
    use super::*;

    // Sees the map alone.
    fn ask<B: Book>(book: &mut B, id: &[u8]) -> Option<usize>
        ensures { result ≡ B.terms book.old id.now }
    {
        book.term(id)
    }

    #[test]
    fn both_kinds(rt: HostRuntime) {
        let mut numbered = Numbered::new(11);
        assert_eq!(rt; ask(&mut numbered, b"#10"), Some(10));
        assert_eq!(rt; ask(&mut numbered, b"#0"), Some(0));
        assert_eq!(rt; ask(&mut numbered, b"#11"), None);
        assert_eq!(rt; ask(&mut numbered, b"#01"), None);
        let mut listed = Listed::new(b"f\n\nx y\nf\r\nx y\n");
        assert_eq!(rt; ask(&mut listed, b"x y"), Some(2));
        assert_eq!(rt; ask(&mut listed, b"f\r"), Some(3));
        assert_eq!(rt; ask(&mut listed, b""), None);
        assert_eq!(rt; ask(&mut listed, b"y"), None);
    }
}
