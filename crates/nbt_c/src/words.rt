//! Names as text, as tools spell them, without allocating.

ghost use Rattle.std.specs.Prelude.{◌≡◌, ℕ, ◌+◌, ◌*◌, ◌≤◌, List, [], ◌∷◌, ◌++◌, length};
ghost use Rattle.hex.specs.Hex.{encode_lower, encode_upper};
ghost use Rattle.nbt_text.specs.NameText.{PrintsComponent, PrintsLabels, prefix};
ghost use Rattle.nbt_text.specs.SuffixedNames.{PrintsOctets};
ghost use Rattle.nbt_text.specs.ScopedNames.{dotted};
ghost use Rattle.nbt_c.specs.Names.{IsScopeText, IsWord, Writes};

use crate::buffer::put_form;
use crate::name::CName;
use crate::results::{NO_NAME, given};
use arrayvec::ArrayVec;
use nbt_name::Name;
use nbt_text::{front_of, stands_as_it_is};

/// How many of the octets stand before the suffix (RFC 1001 section 14, our profile).
const FRONT_MOST: usize = 15;

/// The digits of a suffix.
const CAPITAL_DIGITS: &[u8; 16] = b"0123456789ABCDEF";

/// A buffer for the text of any scope: up to five characters for an octet.
type Text = ArrayVec<u8, 1105>;

/// The name's sixteen octets as `nbt_text::write_octets` prints them, 4 to 36 characters: `FILER#20`, or `hex:` and 32 digits.
/// 0, and they stand at the front of `out`, `size` being how many there are. Else nothing is written: 255 where `name` holds no
/// name, 254 where `out` has fewer octets.
#[unsafe(no_mangle)]
pub extern "C" fn nbt_name_to_word(name: &CName, out: &mut [u8], size: &mut usize) -> u8
    ensures { Writes IsWord name.now out.old size.old result out.new size.new }
{
    given!(name = name.read(), else NO_NAME);
    put_form(word_of(name.octets()).as_slice(), out, size)
}

/// The name's scope as `nbt_text::write_name` prints it, but for the dot before its first label: the labels with dots between
/// them, as `NETBIOS.COM`, or nothing. A label that can't be read back as it stands is printed as `hex:` and lower-case digits. 0,
/// and it stands at the front of `out`, `size` being how many characters it has. Else nothing is written: 255, 254 as by
/// `nbt_name_to_word`.
#[unsafe(no_mangle)]
pub extern "C" fn nbt_name_to_scope(name: &CName, out: &mut [u8], size: &mut usize) -> u8
    ensures { Writes IsScopeText name.now out.old size.old result out.new size.new }
{
    given!(name = name.read(), else NO_NAME);
    put_form(undotted(labels_of(&name).as_slice()), out, size)
}

/// Labels without the dot before the first.
fn undotted(labels: &[u8]) -> &[u8]
    ensures { (scope : List ℕ) → PrintsLabels scope labels.now → PrintsLabels scope (dotted result.now) }
{
    match labels.split_first() {
        Some((_, rest)) => rest,
        None => labels,
    }
}

/// The word of sixteen octets, as `nbt_text::write_octets` has it.
fn word_of(octets: &[u8; 16]) -> Text
    ensures { PrintsOctets octets.now result.items }
{
    match front_of(octets) {
        Some(front) => with_suffix(front, octets[FRONT_MOST]),
        None => {
            let mut digits = Text::new();
            put_hexadecimal(octets, &mut digits);
            digits
        }
    }
}

/// The characters, `#` and the suffix.
fn with_suffix(front: &[u8], suffix: u8) -> Text
    requires { length front.now ≤ 15 }
    ensures { result.items ≡ front.now ++ 0x23 ∷ encode_upper (suffix ∷ []) }
{
    let mut word = Text::new();
    word.try_extend_from_slice(front).unwrap();
    word.push(b'#');
    word.push(CAPITAL_DIGITS[usize::from(suffix / 16)]);
    word.push(CAPITAL_DIGITS[usize::from(suffix % 16)]);
    word
}

/// The text of a scope, each label after a dot, as `nbt_text::write_name` has it.
fn labels_of(name: &Name) -> Text
    ensures { PrintsLabels name.now.scope result.items }
{
    let mut out = Text::new();
    let mut rest = name.scope();
    'labels: while let Some((&count, labels)) = rest.split_first() {
        let (label, others) = labels.split_at(usize::from(count));
        out.push(b'.');
        put_label(label, &mut out);
        rest = others;
    }
    out
}

/// Appends a label as it is, or, where it can't be printed so, in hexadecimal.
fn put_label(label: &[u8], out: &mut Text)
    requires short { length label.now ≤ 63 }
    requires room { length out.old.items + 4 + 2 * length label.now ≤ 1105 }
    ensures { (text : List ℕ) × (out.new.items ≡ out.old.items ++ text) × PrintsComponent label.now label.now text
        × (length text ≤ 4 + 2 * length label.now) }
{
    if stands_as_it_is(label) {
        out.try_extend_from_slice(label).unwrap();
    } else {
        put_hexadecimal(label, out);
    }
}

/// Appends `hex:` and the octets' lower-case digits.
fn put_hexadecimal(octets: &[u8], out: &mut Text)
    requires short { length octets.now ≤ 63 }
    requires room { length out.old.items + 4 + 2 * length octets.now ≤ 1105 }
    ensures { out.new.items ≡ out.old.items ++ (prefix ++ encode_lower octets.now) }
{
    let mut digits = [0; 126];
    let count = 2 * octets.len();
    hex::encode_to_slice(octets, &mut digits[..count]).unwrap();
    out.try_extend_from_slice(b"hex:").unwrap();
    out.try_extend_from_slice(&digits[..count]).unwrap();
}
