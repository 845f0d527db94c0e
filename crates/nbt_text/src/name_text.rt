//! NetBIOS names as text (our profile; names are those of RFC 1001 section 14).
//!
//! The sixteen octets, then for each label of the scope a dot and the label, as in `FRED.NETBIOS.COM`. The spaces at
//! the end of the sixteen octets are left out. A component that begins with `hex:` is hexadecimal, any other stands
//! as it is: octets 0x21 to 0x7E, none of them a dot.

ghost use Rattle.std.specs.Prelude.{◌≡◌, ℕ, ◌+◌, ◌<◌, ◌≤◌, ◌∷◌, ◌++◌, ◌↔◌, List, length, IsTrue, Some, IfSome, IfNone, OnSome, OnOk};
ghost use Rattle.std.specs.String.{string_bytes};
ghost use Rattle.nbt_name.specs.Scope.{IsScope};
ghost use Rattle.nbt_name.specs.Wire.{NameValue, name_of};
ghost use Rattle.nbt_text.specs.NameText.{Component, IsPlain, IsPrefixed, IsTrimmed, PrintsName, PrintsComponent, PrintsLabels, Sixteen, SpellsName, StandsAsItIs, prefix};

use crate::hexadecimal::write_hexadecimal;
use crate::pieces::split_at_first;
use arrayvec::ArrayVec;
use nbt_name::{LentName, Name};
use std::alloc::AllocError;

/// What stands between two components.
const DOT: u8 = b'.';

/// What fills up the sixteen octets.
const SPACE: u8 = b' ';

/// The most octets of a label (RFC 1002 section 4.1).
const LABEL_MOST: usize = 63;

/// Reads a name. The name's component has 1 to 16 octets and is filled up with 0x20, or has 32 hexadecimal digits of
/// either case; each label's has 1 to 63 octets, or 2 to 126 digits. `None` where it is no such text, or the labels
/// and their length octets have more than 221 octets. The name may begin with `*`.
pub fn parse_name(text: &[u8]) -> Option<Name>
    ensures { (name : NameValue) → (result ≡ Some name) ↔ SpellsName text.now name }
{
    let (first, mut rest) = split_at_first(DOT, text);
    let octets = sixteen_of(first)?;
    let mut scope = ArrayVec::new();
    'labels: while let Some(labels) = rest {
        let (component, others) = split_at_first(DOT, labels);
        push_label(component, &mut scope)?;
        rest = others;
    }
    Some(name_from(&octets, scope.as_slice()))
}

/// Appends the name. A component that can't be read back as it stands is printed as `hex:` and lower-case digits, for
/// the sixteen octets always all 32.
pub fn write_name(name: &Name, out: &mut String) -> Result<(), AllocError>
    ensures { OnOk result ((text : List ℕ) × (string_bytes out.new ≡ string_bytes out.old ++ text)
        × PrintsName name.now text) }
{
    let octets = name.octets().as_slice();
    write_component(without_spaces(octets), octets, out)?;
    write_labels(name.scope(), out)
}

/// Appends the labels of a scope, each after a dot. One that can't be read back as it stands is printed as `hex:` and
/// lower-case digits.
pub(crate) fn write_labels(scope: &[u8], out: &mut String) -> Result<(), AllocError>
    requires { IsScope scope.now }
    ensures { OnOk result ((text : List ℕ) × PrintsLabels scope.now text
        × (string_bytes out.new ≡ string_bytes out.old ++ text)) }
{
    let mut rest = scope;
    'labels: while let Some((&count, labels)) = rest.split_first() {
        let (label, others) = labels.split_at(usize::from(count));
        out.push('.')?;
        write_component(label, label, out)?;
        rest = others;
    }
    Ok(())
}

/// The name of these sixteen octets, with the scope of `scoped`. It may begin with `*`.
pub fn with_octets(octets: &[u8; 16], scoped: &Name) -> Name
    ensures { result ≡ name_of octets.now scoped.now.scope }
{
    name_from(octets, scoped.scope())
}

/// The sixteen octets that the name's component spells.
fn sixteen_of(component: &[u8]) -> Option<[u8; 16]>
    ensures read { IfSome result (Sixteen component.now) }
    ensures found { (octets : List ℕ) → Sixteen component.now octets → result ≡ Some octets }
{
    let mut octets = [SPACE; 16];
    match digits_of(component) {
        Some(digits) => hex::decode_to_slice(digits, octets.as_mut_slice()).ok()?,
        None => {
            if component.len() > 16 || !stands_as_it_is(component) {
                return None;
            }
            octets[..component.len()].copy_from_slice(component);
        }
    }
    Some(octets)
}

/// Appends the label that the component spells, after its length octet.
fn push_label(component: &[u8], scope: &mut ArrayVec<u8, 221>) -> Option<()>
    ensures pushed { OnSome result ((label : List ℕ) × Component component.now label × (1 ≤ length label)
        × (length label ≤ 63) × (scope.new.items ≡ scope.old.items ++ length label ∷ label)) }
    ensures refused { IfNone result ((label : List ℕ) → Component component.now label → 1 ≤ length label
        → length label ≤ 63 → 221 < length scope.old.items + 1 + length label) }
{
    match digits_of(component) {
        Some(digits) => {
            let count = digits.len() / 2;
            if count > LABEL_MOST {
                return None;
            }
            let mut octets = [0; LABEL_MOST];
            hex::decode_to_slice(digits, &mut octets[..count]).ok()?;
            push_counted(&octets[..count], scope)
        }
        None if stands_as_it_is(component) => push_counted(component, scope),
        None => None,
    }
}

/// Appends a label of 1 to 63 octets after its length octet.
fn push_counted(label: &[u8], scope: &mut ArrayVec<u8, 221>) -> Option<()>
    ensures pushed { OnSome result ((1 ≤ length label.now) × (length label.now ≤ 63)
        × (scope.new.items ≡ scope.old.items ++ length label.now ∷ label.now)) }
    ensures refused { IfNone result (1 ≤ length label.now → length label.now ≤ 63
        → 221 < length scope.old.items + 1 + length label.now) }
{
    if label.is_empty() || label.len() > LABEL_MOST {
        return None;
    }
    scope.try_push(label.len() as u8).ok()?;
    scope.try_extend_from_slice(label).ok()
}

/// The name of sixteen octets and a scope, also one that begins with `*`.
fn name_from(octets: &[u8; 16], scope: &[u8]) -> Name
    requires labels { IsScope scope.now }
    requires fits { length scope.now ≤ 221 }
    ensures { result ≡ name_of octets.now scope.now }
{
    LentName::new(octets, scope).unwrap().to_name()
}

/// What follows the `hex:` that a component in hexadecimal begins with; `None` where it doesn't begin so.
pub fn digits_of(component: &[u8]) -> Option<&[u8]>
    ensures digits { IfSome result (λ digits. component.now ≡ prefix ++ digits.now) }
    ensures none { IfNone result (¬ IsPrefixed component.now) }
{
    match component {
        [b'h', b'e', b'x', b':', digits @ ..] => Some(digits),
        _ => None,
    }
}

/// Whether `write_name` prints a label of these octets as it is: one at least, each from 0x21 to 0x7E and no dot, and no `hex:`
/// at the front (our profile).
pub fn stands_as_it_is(octets: &[u8]) -> bool
    ensures { IsTrue result ↔ StandsAsItIs octets.now }
{
    !octets.is_empty() && octets.iter().all(|octet| is_plain(*octet)) && digits_of(octets).is_none()
}

/// Whether an octet can be printed as it is: 0x21 to 0x7E, and no dot.
fn is_plain(octet: u8) -> bool
    ensures { IsTrue result ↔ IsPlain octet }
{
    0x21 <= octet && octet <= 0x7E && octet != DOT
}

/// The octets without the spaces at their end.
fn without_spaces(octets: &[u8]) -> &[u8]
    ensures { IsTrimmed octets.now result.now }
{
    let mut rest = octets;
    'spaces: while let [others @ .., SPACE] = rest {
        rest = others;
    }
    rest
}

/// Appends `plain` as it is, or, where it can't be printed so, `whole` in hexadecimal.
fn write_component(plain: &[u8], whole: &[u8], out: &mut String) -> Result<(), AllocError>
    ensures { OnOk result ((text : List ℕ) × (string_bytes out.new ≡ string_bytes out.old ++ text)
        × PrintsComponent plain.now whole.now text) }
{
    if !stands_as_it_is(plain) {
        out.push_str("hex:")?;
        return write_hexadecimal(whole, out);
    }
    for octet in plain {
        out.push(char::from(*octet))?;
    }
    Ok(())
}
