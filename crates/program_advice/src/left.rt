//! What a rescue that is done left, by its last line.

/// How many bytes failed of a rescue whose last line begins so, if it is done. No contract ties this to the line:
/// `tests/cases/advice` does.
pub fn left_by(line: &[u8]) -> Option<u64> {
    let text = str::from_utf8(line).ok()?;
    let figures = text.strip_prefix("finished: ")?;
    let (_, after) = figures.split_once(", failed ")?;
    let (bytes, _) = after.split_once(" B in ")?;
    bytes.parse().ok()
}
