//! Parts of a text between bytes of one value.
ghost use Rattle.std.specs.Prelude.{◌≡◌, ◌==◌, ◌<◌, [], length, IfSome, get_or, option_map, position};
ghost use Rattle.xa_http.specs.Routes.{has_empty_part};
ghost use Rattle.xa_http.specs.Parts.{before, from_first, parts_of};

/// The index of the first byte of that value.
fn index_of(text: &[u8], by: u8) -> Option<usize>
    ensures first { result ≡ position (λ byte. byte == by) text.now }
    ensures within { IfSome result (λ index. index < length text.now) }
{
    text.iter().position(|byte| *byte == by)
}

/// The text before the first byte of that value, or all of it.
pub(crate) fn before(text: &[u8], by: u8) -> &[u8]
    ensures { result.now ≡ before by text.now }
{
    match index_of(text, by) {
        Some(index) => &text[..index],
        None => text,
    }
}

/// The text from the first byte of that value on.
pub(crate) fn from_first(text: &[u8], by: u8) -> Option<&[u8]>
    ensures { option_map (λ rest. rest.now) result ≡ from_first by text.now }
{
    let index = index_of(text, by)?;
    Some(&text[index..])
}

/// A part of the path. Part 0 is what stands before the first slash.
pub(crate) fn part_at(path: &[u8], part: usize) -> &[u8]
    ensures { result.now ≡ get_or (parts_of 47 path.now) part [] }
{
    path.split(|byte| *byte == b'/').nth(part).unwrap_or(&[])
}

/// Whether a part of the path that follows a slash is empty.
pub(crate) fn has_empty_part(path: &[u8]) -> bool
    ensures { result ≡ has_empty_part path.now }
{
    path.split(|byte| *byte == b'/')
        .skip(1)
        .any(|part| part.is_empty())
}
