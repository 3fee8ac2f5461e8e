use dstm_text::{
    DecimalError, Fields, Lines, Pieces, decimal, one_spelling, push_decimal, split_at_line,
};
use std::test::Fail;

// Tells whether these are the lines of a text, one after the other, and it has no other.
fn has_lines(text: &str, wanted: &[&str]) -> bool {
    let mut lines = Lines::new(text.as_bytes());
    for line in wanted {
        if lines.next() != Some(line.as_bytes()) {
            return false;
        }
    }
    lines.next().is_none() && Lines::new(text.as_bytes()).count() == wanted.len() as u64
}

fn has_fields(text: &str, wanted: &[&str]) -> bool {
    let mut fields = Fields::new(text.as_bytes());
    for field in wanted {
        if fields.next() != Some(field.as_bytes()) {
            return false;
        }
    }
    fields.next().is_none()
}

fn has_pieces(text: &str, wanted: &[&str]) -> bool {
    let mut pieces = Pieces::new(text.as_bytes(), b' ');
    for piece in wanted {
        if pieces.next() != Some(piece.as_bytes()) {
            return false;
        }
    }
    pieces.next().is_none()
}

#[test]
fn texts_fall_into_lines_and_fields(rt: HostRuntime) {
    assert!(rt; has_lines("one  two \n\n three", &["one  two ", "", " three"]));
    assert!(rt; has_lines("end\n", &["end"]));
    assert!(rt; has_fields("one  two ", &["one", "two"]));
    assert!(rt; has_pieces("one  two ", &["one", "", "two", ""]));
}

// Tells whether a text falls into what stands before its first line `---` and what stands behind.
fn splits(text: &str, before: &str, behind: Option<&str>) -> bool {
    let (front, rest) = split_at_line(text.as_bytes(), b"---");
    front == before.as_bytes() && rest == behind.map(|behind| behind.as_bytes())
}

#[test]
fn a_text_is_split_at_a_line(rt: HostRuntime) {
    let table = [
        ("one\n---\ntwo\n", "one\n", Some("two\n")),
        ("---\n---\n", "", Some("---\n")),
        ("one\n---", "one\n", Some("")),
        ("one\n--- \n ---\n", "one\n--- \n ---\n", None),
        ("one---\n", "one---\n", None),
        ("", "", None),
    ];
    for (text, before, behind) in table {
        assert!(rt; splits(text, before, behind), "{text:?}");
    }
}

#[test]
fn decimals_are_plain(rt: HostRuntime) {
    let table = [
        ("0", Ok(0)),
        ("70", Ok(70)),
        ("18446744073709551615", Ok(u64::MAX)),
        ("18446744073709551616", Err(DecimalError::TooLarge)),
        ("99999999999999999999999", Err(DecimalError::TooLarge)),
        ("", Err(DecimalError::NotPlain)),
        ("01", Err(DecimalError::NotPlain)),
        ("00", Err(DecimalError::NotPlain)),
        ("+1", Err(DecimalError::NotPlain)),
        ("1a", Err(DecimalError::NotPlain)),
    ];
    for (field, want) in table {
        assert!(rt; decimal(field.as_bytes()) == want, "{field:?}");
    }
    one_spelling();
}

#[test]
fn decimals_are_written(rt: HostRuntime) -> Result<(), Fail> {
    let mut text = Vec::new(rt.alloc());
    push_decimal(&mut text, 0)?;
    push_decimal(&mut text, u64::MAX)?;
    assert!(rt; text.as_slice() == b"018446744073709551615".as_slice());
    Ok(())
}
