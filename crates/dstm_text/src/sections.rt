ghost use Rattle.std.specs.Prelude.{◌≡◌, option_map, option_copied};
ghost use Rattle.dstm_text.specs.Lines.{lines_of, split_lines};

use memchr::memchr;

/// What stands before the first line that is exactly `mark`, and what stands behind that line. Where no
/// line is, all of the text stands before it.
pub fn split_at_line<'a>(bytes: &'a [u8], mark: &[u8]) -> (&'a [u8], Option<&'a [u8]>)
    ensures before { lines_of result.0.now ≡ (split_lines mark.now (lines_of bytes.now)).0 }
    ensures behind { option_map lines_of (option_copied result.1) ≡ (split_lines mark.now (lines_of bytes.now)).1 }
{
    let mut start = 0;
    while let Some(length) = memchr(b'\n', &bytes[start..]) {
        let end = start + length;
        if &bytes[start..end] == mark {
            return (&bytes[..start], Some(&bytes[end + 1..]));
        }
        start = end + 1;
    }
    let last = &bytes[start..];
    if last.is_empty() {
        return (bytes, None);
    }
    if last == mark {
        return (&bytes[..start], Some(&[]));
    }
    (bytes, None)
}
