//! The lines and scenes of two texts, and where the texts differ.
ghost use Rattle.std.specs.Prelude.{◌≡◌, ◌+◌, ◌<◌, ◌≤◌, length, take, drop, get_or, count_by, nat_eq, IfSome, IfNone};
ghost use Rattle.scene_text.specs.Texts.{is_part_end, part_length, part_count, scene_count, first_line, IsLineStart};

/// How many scenes a text has: how many of its lines begin with `scene`.
pub fn count_scenes(text: &[u8]) -> usize
    ensures { result ≡ scene_count text.now }
{
    let parts = count_parts(text);
    if text.starts_with(b"scene") {
        parts
    } else {
        parts.saturating_sub(1)
    }
}

/// How many parts a text has. A part is a scene, or what comes before the first scene.
fn count_parts(text: &[u8]) -> usize
    ensures { result ≡ part_count text.now }
{
    let mut count = 0;
    for at in 0..text.len() {
        if ends_part(text, at) {
            count += 1;
        }
    }
    count
}

/// How many scenes of two texts differ. A scene that only one of them has is one that differs. What comes before the
/// first scene counts like a scene.
pub fn count_differing(wanted: &[u8], found: &[u8]) -> usize
    ensures none { result ≡ 0 → wanted.now ≡ found.now }
    ensures same { wanted.now ≡ found.now → result ≡ 0 }
{
    let mut wanted_rest = wanted;
    let mut found_rest = found;
    let mut count: usize = 0;
    while !wanted_rest.is_empty() || !found_rest.is_empty() {
        let (wanted_part, wanted_after) = first_part(wanted_rest);
        let (found_part, found_after) = first_part(found_rest);
        if wanted_part != found_part {
            count = count.saturating_add(1);
        }
        wanted_rest = wanted_after;
        found_rest = found_after;
    }
    count
}

/// The place at which the first line begins that differs between two texts.
pub fn first_difference(wanted: &[u8], found: &[u8]) -> Option<usize>
    ensures none { IfNone result (wanted.now ≡ found.now) }
    ensures same { IfSome result (λ place. take place wanted.now ≡ take place found.now) }
    ensures differ { IfSome result (λ place.
        ¬ (first_line (drop place wanted.now) ≡ first_line (drop place found.now))) }
    ensures start { IfSome result (λ place. IsLineStart wanted.now place) }
    ensures wanted { IfSome result (λ place. place ≤ length wanted.now) }
    ensures found { IfSome result (λ place. place ≤ length found.now) }
{
    let mut place = 0;
    while place < wanted.len() {
        let line = line_from(wanted, place);
        if line != line_from(found, place) {
            return Some(place);
        }
        place += line.len();
    }
    if place < found.len() {
        Some(place)
    } else {
        None
    }
}

/// The number of the line that begins at a place. The first line has the number 1.
pub fn line_number(text: &[u8], place: usize) -> usize
    requires { place ≤ length text.now }
    ensures { result ≡ 1 + count_by (λ byte. nat_eq byte 10) (take place text.now) }
{
    let mut number = 1;
    for byte in &text[..place] {
        if *byte == b'\n' {
            number += 1;
        }
    }
    number
}

/// The line that begins at a place, with its newline. At the end of the text it has no byte.
pub fn line_from(text: &[u8], place: usize) -> &[u8]
    requires { place ≤ length text.now }
    ensures { result.now ≡ first_line (drop place text.now) }
{
    let (_, rest) = text.split_at(place);
    for at in 0..rest.len() {
        if rest[at] == b'\n' {
            let (line, _) = rest.split_at(at + 1);
            return line;
        }
    }
    rest
}

/// The first part of a text, and the rest of the text.
fn first_part(text: &[u8]) -> (&[u8], &[u8])
    ensures part { result.0.now ≡ take (part_length text.now) text.now }
    ensures rest { result.1.now ≡ drop (part_length text.now) text.now }
{
    for at in 0..text.len() {
        if ends_part(text, at) {
            return text.split_at(at + 1);
        }
    }
    text.split_at(text.len())
}

/// Whether a part ends with the byte at a place.
fn ends_part(text: &[u8], at: usize) -> bool
    requires { at < length text.now }
    ensures { result ≡ is_part_end (get_or text.now at 0) (drop (at + 1) text.now) }
{
    let rest = &text[at + 1..];
    rest.is_empty() || text[at] == b'\n' && rest.starts_with(b"scene")
}
