// A text as lines, cut at the byte 0x0A alone.
#![tactic(auto)]

ghost use Rattle.std.specs.Prelude.{◌≡◌};
ghost use Rattle.std.specs.Option.{option_map};
ghost use Rattle.lines.specs.Lines.{line_len, first_line, both_now, Cut, Laws};

mod left;

pub use left::Lines;

// How many bytes stand before the first 0x0A: all of them where there is none.
pub fn line_len(text: &[u8]) -> usize
    ensures { result ≡ line_len text.now }
{
    text.iter().take_while(|b| **b != b'\n').count()
}

// The first line and what follows its 0x0A; none where the text is empty.
#[tactic(auto, using(crate::proofs::Splits::line_len_le, crate::proofs::Splits::first_line_by, crate::proofs::Splits::first_cuts, crate::proofs::Splits::split_laws))]
pub fn first_line(text: &[u8]) -> Option<(&[u8], &[u8])>
    ensures value { option_map both_now result ≡ first_line text.now }
    ensures cases { Cut text.now (first_line text.now) }
    ensures laws { Laws text.now }
{
    if text.is_empty() {
        return None;
    }
    let (line, rest) = text.split_at(line_len(text));
    match rest.split_first() {
        Some((_feed, after)) => Some((line, after)),
        None => Some((line, rest)),
    }
}

#[cfg(test)]
mod tests {
    use super::*;

    #[test]
    fn lines_of_a_text(rt: HostRuntime) {
        let (line, rest): (&[u8], &[u8]) = (b"a\r", b"\nb");
        assert_eq!(rt;
            first_line(b"a\r\n\nb"),
            Some((line, rest)),
            "0x0D ends no line"
        );
        let (line, rest): (&[u8], &[u8]) = (b"", b"b");
        assert_eq!(rt; first_line(b"\nb"), Some((line, rest)));
        let (line, rest): (&[u8], &[u8]) = (b"b", b"");
        assert_eq!(rt; first_line(b"b"), Some((line, rest)));
        assert_eq!(rt; first_line(b""), None);
        assert_eq!(rt; Lines::of(b"a\n\nb").count(), 3);
        assert_eq!(rt; line_len(b"ab\nc"), 2);
    }
}
