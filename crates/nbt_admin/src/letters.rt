//! How a name with a letter outside ASCII is written, in words.

/// The last octet of ASCII.
const ASCII_LAST: u8 = 0x7F;

/// What stands behind the fault of a name at this place, where a letter outside ASCII stands there: which octets are wanted. A machine has
/// such a letter in its OEM code page, which a text in UTF-8 doesn't say.
pub(crate) fn how_to_write(text: &str, place: usize) -> &'static str {
    match text.as_bytes().get(place) {
        Some(octet) if *octet > ASCII_LAST => {
            "; they are its octets in the code page of the machine that has it, where a capital Ü is 9a in 437 and in 850"
        }
        _ => "",
    }
}
