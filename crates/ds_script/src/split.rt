//! Lines of a text.
ghost use Rattle.std.specs.Prelude.{◌≡◌, ◌<◌, ◌∷◌, length};
ghost use Rattle.ds_script.specs.Split.{lines_of, is_blank, says_nothing};

/// The first line without its end, and what stands behind it. The last line needs no end.
pub fn first_line(bytes: &[u8]) -> (&[u8], &[u8])
    requires { 0 < length bytes.now }
    ensures lines { lines_of bytes.now ≡ result.0.now ∷ lines_of result.1.now }
    ensures shorter { length result.1.now < length bytes.now }
{
    match bytes.iter().position(|b| *b == b'\n') {
        Some(end) => (&bytes[..end], &bytes[end + 1..]),
        None => (bytes, &[]),
    }
}

/// Whether nothing stands on the line but spaces, tabs and carriage returns.
pub fn is_blank(line: &[u8]) -> bool
    ensures { result ≡ is_blank line.now }
{
    line.iter()
        .all(|b| *b == b' ' || *b == b'\t' || *b == b'\r')
}

/// Whether there are only blank lines.
pub fn says_nothing(bytes: &[u8]) -> bool
    ensures { result ≡ says_nothing bytes.now }
{
    bytes.iter().all(|b| *b == b' ' || *b == b'\t' || *b == b'\r' || *b == b'\n')
}
