// The lines that are left of a text.
ghost use Rattle.std.specs.Prelude.{◌≡◌};
ghost use Rattle.std.specs.Iterator.{YieldsFirstRef, item_count};
ghost use Rattle.lines.specs.Lines.{split};

use crate::first_line;

#[derive(Clone, Copy, Debug, PartialEq, Eq)]
pub struct Lines<'a> {
    text: &'a [u8],
}

impl<'a> Lines<'a> {
    ghost use Rattle.lines.specs.Left.{left};

    pub fn of(text: &'a [u8]) -> Self
        ensures { left result ≡ split text.now }
    {
        Lines { text }
    }
}

impl<'a> Iterator for Lines<'a> {
    ghost use Rattle.lines.specs.Left.{left};

    type Item = &'a [u8];

    ghost next_gives = { YieldsFirstRef left };

    ghost remaining = { item_count left };

    fn next(&mut self) -> Option<&'a [u8]> {
        let (line, rest) = first_line(self.text)?;
        self.text = rest;
        Some(line)
    }
}
