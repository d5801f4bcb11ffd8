// Lines over pieces with a carry memory of eight bytes.
use super::*;

// What is found, by the bytes of the line.
fn bytes<'x>(
    found: Option<Result<Span, TooLong>>,
    reader: &'x LineReader,
    text: &'x [u8],
) -> Option<Result<&'x [u8], TooLong>> {
    Some(found?.map(|span| reader.line(text, span)))
}

#[test]
fn within_a_piece(rt: HostRuntime) {
    let text = b"12345678\n123456789\n\nab".as_slice();
    let mut carry = [0; 8];
    let mut reader = LineReader::new(&mut carry);
    let (found, left) = reader.join(text);
    assert_eq!(rt;
        bytes(found, &reader, text),
        Some(Ok(b"12345678".as_slice())),
        "as long as the limit"
    );
    let (found, left) = reader.join(left);
    assert_eq!(rt; found, Some(Err(TooLong)), "one byte more");
    let text = left;
    let (found, left) = reader.join(text);
    assert_eq!(rt;
        bytes(found, &reader, text),
        Some(Ok(b"".as_slice())),
        "an empty line"
    );
    assert_eq!(rt; reader.join(left), (None, b"".as_slice()));
    let found = reader.finish();
    assert_eq!(rt;
        bytes(found, &reader, b""),
        Some(Ok(b"ab".as_slice())),
        "no line end at the input's end"
    );
    assert_eq!(rt; reader.finish(), None);
}

#[test]
fn over_three_pieces(rt: HostRuntime) {
    let mut carry = [0; 8];
    let mut reader = LineReader::new(&mut carry);
    assert_eq!(rt; reader.join(b"ab").0, None);
    assert_eq!(rt; reader.join(b"cdef").0, None);
    let text = b"gh\ni".as_slice();
    let (found, left) = reader.join(text);
    assert_eq!(rt;
        bytes(found, &reader, text),
        Some(Ok(b"abcdefgh".as_slice()))
    );
    assert_eq!(rt; reader.join(left).0, None);
    let (found, _) = reader.join(b"\n");
    assert_eq!(rt;
        bytes(found, &reader, b"\n"),
        Some(Ok(b"i".as_slice())),
        "a piece that begins with the line end"
    );
}

#[test]
fn too_long_over_three_pieces(rt: HostRuntime) {
    let mut carry = [0; 8];
    let mut reader = LineReader::new(&mut carry);
    assert_eq!(rt; reader.join(b"123456").0, None);
    assert_eq!(rt; reader.join(b"789").0, None);
    let (found, text) = reader.join(b"0\nok\n");
    assert_eq!(rt; found, Some(Err(TooLong)));
    let (found, left) = reader.join(text);
    assert_eq!(rt; bytes(found, &reader, text), Some(Ok(b"ok".as_slice())));
    assert_eq!(rt; reader.join(left).0, None);
    assert_eq!(rt; reader.finish(), None);
}

#[test]
fn empty_input(rt: HostRuntime) {
    let mut carry = [0; 8];
    let mut reader = LineReader::new(&mut carry);
    assert_eq!(rt; reader.join(b"").0, None);
    assert_eq!(rt; reader.finish(), None);
}
