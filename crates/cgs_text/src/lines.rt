//! A text is cut into lines.

ghost use Rattle.std.specs.Prelude.{◌≡◌, ◌<◌, ◌≤◌, ◌∷◌, ◌==◌, length, position};
ghost use Rattle.cgs_problem.specs.Lines.{lines_of, without_cr, is_passed_over};

/// The first line, and the bytes after its line feed.
pub(crate) fn first_line(bytes: &[u8]) -> (&[u8], &[u8])
    requires { 0 < length bytes.now }
    ensures line { lines_of bytes.now ≡ result.0.now ∷ lines_of result.1.now }
    ensures within { length result.0.now ≤ length bytes.now }
    ensures shorter { length result.1.now < length bytes.now }
{
    match line_feed(bytes) {
        Some(at) => (&bytes[..at], &bytes[at + 1..]),
        None => (bytes, &bytes[bytes.len()..]),
    }
}

fn line_feed(bytes: &[u8]) -> Option<usize>
    ensures { result ≡ position (λ byte. byte == 10) bytes.now }
{
    bytes.iter().position(|byte| *byte == b'\n')
}

/// A line without the carriage return that may end it.
pub(crate) fn without_cr(line: &[u8]) -> &[u8]
    ensures bytes { result.now ≡ without_cr line.now }
    ensures within { length result.now ≤ length line.now }
{
    let Some((last, rest)) = line.split_last() else {
        return line;
    };
    if *last == b'\r' { rest } else { line }
}

/// Whether a line is blank or a comment.
pub(crate) fn is_passed_over(line: &[u8]) -> bool
    ensures { result ≡ is_passed_over line.now }
{
    for byte in line {
        if *byte != b' ' && *byte != b'\t' {
            return *byte == b'#';
        }
    }
    true
}
