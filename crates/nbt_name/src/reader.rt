//! A reader of names, which goes from label to label (RFC 1002 section 4.1).

ghost use Rattle.std.specs.Prelude.{◌≡◌, ℕ, List, [], ◌+◌, ◌<◌, ◌≤◌, ◌↔◌, Ok, Err, Some, None, length, slice_get, slice_index, slice_range, EachIndex, IsTrue, IsSome, IfErr, OnOk, unwrap_or};
ghost use Rattle.std.specs.Option.{ForNone, ForSome};
ghost use Rattle.nbt_name.specs.Wire.{NameValue, IsName, letters as letters_of};
ghost use Rattle.nbt_name.specs.Reading.{IsLetter, LettersAt, LetterFault};
ghost use Rattle.nbt_name.specs.declared.form.Form.{Form};

use crate::fault::{NameFault, NameFaultKind};
use crate::form::Form;
use crate::wire::{LABEL_MOST, LETTERS, LETTERS_COUNT, LETTERS_WHOLE, POINTER, WIRE_MOST};

/// A reader on its way through a name's labels.
#[derive(Debug, Drop)]
pub(crate) struct Reader {
    /// Where it stands.
    pub(crate) place: usize,
    /// The octets that the first label spells, once it was passed.
    pub(crate) first: Option<[u8; 16]>,
    /// How many octets the later labels have, with their length octets.
    pub(crate) scope: usize,
    /// The place after the first pointer, once it was followed.
    pub(crate) resume: Option<usize>,
    ghost whole: { ForSome first (λ octets. length octets ≡ 16) },
    ghost fresh: { ForNone first (scope ≡ 0) },
    ghost fits: { scope ≤ 221 },
}

/// What one turn of the reader's loop did.
#[derive(Debug)]
pub(crate) enum Progress {
    /// A label was passed, or a pointer followed.
    Moved,
    /// The closing zero stands here, after a first label that spells these octets.
    Closed([u8; 16]),
}

impl Reader {
    ghost use Rattle.nbt_name.specs.Inner.Reader.{IsAtStart, Turns, Passes};

    pub(crate) fn new(place: usize) -> Reader
        ensures { IsAtStart place result }
    {
        Reader {
            place,
            first: None,
            scope: 0,
            resume: None,
        }
    }

    /// Makes one step, or finds the closing zero.
    pub(crate) fn turn(&mut self, form: Form, octets: &[u8]) -> Result<Progress, NameFault>
        ensures { Turns form octets.now self.old self.new result }
    {
        let Some(&count) = octets.get(self.place) else {
            return Err(short(octets));
        };
        if count >= POINTER {
            self.follow(form, octets, count)?;
            return Ok(Progress::Moved);
        }
        match self.first {
            None => self.pass_letters(octets, count)?,
            Some(sixteen) if count == 0 => return Ok(Progress::Closed(sixteen)),
            Some(_) => self.pass_label(octets, count)?,
        }
        Ok(Progress::Moved)
    }

    /// Passes the first label, which is 32 letters.
    fn pass_letters(&mut self, octets: &[u8], count: u8) -> Result<(), NameFault>
        requires first { self.old.first ≡ None }
        requires within { self.old.place < length octets.now }
        requires finds { slice_get octets.now self.old.place ≡ Some count }
        requires label { count < 0xC0 }
        ensures { (form : Form) → Passes form octets.now self.old self.new result }
    {
        if count != LETTERS {
            return Err(self.fault(NameFaultKind::BadLabel));
        }
        let begin = self.place + 1;
        expect_letters(octets, begin)?;
        self.first = Some(spelled(&octets[begin..begin + LETTERS_COUNT]));
        self.place = begin + LETTERS_COUNT;
        Ok(())
    }

    /// Passes a label of the scope.
    fn pass_label(&mut self, octets: &[u8], count: u8) -> Result<(), NameFault>
        requires later { (sixteen : List ℕ) × (self.old.first ≡ Some sixteen) × (length sixteen ≡ 16) }
        requires within { self.old.place < length octets.now }
        requires finds { slice_get octets.now self.old.place ≡ Some count }
        requires label { (0 < count) × (count < 0xC0) }
        ensures { (form : Form) → Passes form octets.now self.old self.new result }
    {
        let count = usize::from(count);
        if count > LABEL_MOST {
            return Err(self.fault(NameFaultKind::BadLabel));
        }
        if LETTERS_WHOLE + self.scope + 1 + count + 1 > WIRE_MOST {
            return Err(self.fault(NameFaultKind::Long));
        }
        if octets.len() - self.place <= count {
            return Err(short(octets));
        }
        self.scope += 1 + count;
        self.place += 1 + count;
        Ok(())
    }

    /// Follows a pointer to a smaller place.
    fn follow(&mut self, form: Form, octets: &[u8], high: u8) -> Result<(), NameFault>
        requires within { self.old.place < length octets.now }
        requires finds { slice_get octets.now self.old.place ≡ Some high }
        requires pointer { 0xC0 ≤ high }
        ensures { Passes form octets.now self.old self.new result }
    {
        let Form::Compressed = form else {
            return Err(self.fault(NameFaultKind::BadPointer));
        };
        let Some(&low) = octets.get(self.place + 1) else {
            return Err(short(octets));
        };
        let target = usize::from(high - POINTER) * 256 + usize::from(low);
        if target >= self.place {
            return Err(self.fault(NameFaultKind::BadPointer));
        }
        self.resume = Some(self.resume.unwrap_or(self.place + 2));
        self.place = target;
        Ok(())
    }

    /// A fault where the reader stands.
    fn fault(&self, kind: NameFaultKind) -> NameFault
        ensures { result ≡ record { kind = kind; place = self.now.place } }
    {
        NameFault {
            kind,
            place: self.place,
        }
    }
}

/// The octets end where one is missing.
fn short(octets: &[u8]) -> NameFault
    ensures { result ≡ record { kind = NameFaultKind.Short; place = length octets.now } }
{
    NameFault {
        kind: NameFaultKind::Short,
        place: octets.len(),
    }
}

/// Whether an octet is a letter of half-ASCII, `A` to `P` (RFC 1001 section 14.1).
fn is_letter(octet: u8) -> bool
    ensures { IsTrue result ↔ IsLetter octet }
{
    matches!(octet, b'A'..=b'P')
}

/// Looks for 32 letters at a place: at all of them with no early exit, which is fast, and where that fails one by one,
/// for the fault.
fn expect_letters(octets: &[u8], place: usize) -> Result<(), NameFault>
    requires { place ≤ length octets.now }
    ensures letters { OnOk result ((place + 32 ≤ length octets.now) × LettersAt octets.now place 32) }
    ensures fault { IfErr result (LetterFault octets.now place) }
{
    if octets.len() - place >= LETTERS_COUNT && are_letters(&octets[place..place + LETTERS_COUNT]) {
        return Ok(());
    }
    expect_each_letter(octets, place)
}

/// Whether all octets are letters.
fn are_letters(octets: &[u8]) -> bool
    ensures { IsTrue result ↔ EachIndex octets.now (λ k. IsLetter (slice_index octets.now k)) }
{
    let mut all = true;
    for octet in octets {
        all &= is_letter(*octet);
    }
    all
}

/// Looks for 32 letters at a place, one by one. It is never inlined, so that the fast way reads all of them at once.
#[inline(never)]
fn expect_each_letter(octets: &[u8], place: usize) -> Result<(), NameFault>
    requires { place ≤ length octets.now }
    ensures letters { OnOk result ((place + 32 ≤ length octets.now) × LettersAt octets.now place 32) }
    ensures fault { IfErr result (LetterFault octets.now place) }
{
    for k in 0..LETTERS_COUNT {
        let Some(&letter) = octets.get(place + k) else {
            return Err(short(octets));
        };
        if !is_letter(letter) {
            return Err(NameFault {
                kind: NameFaultKind::BadHalf,
                place: place + k,
            });
        }
    }
    Ok(())
}

/// The sixteen octets that 32 letters spell.
fn spelled(letters: &[u8]) -> [u8; 16]
    requires count { length letters.now ≡ 32 }
    requires letters { LettersAt letters.now 0 32 }
    ensures octets { letters_of result ≡ letters.now }
    ensures sixteen { length result ≡ 16 }
{
    let mut octets = [0; 16];
    for (k, octet) in octets.iter_mut().enumerate() {
        *octet = (letters[2 * k] - b'A') * 16 + (letters[2 * k + 1] - b'A');
    }
    octets
}
