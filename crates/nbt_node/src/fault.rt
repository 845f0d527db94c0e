//! Why a node refuses a call.

ghost use Rattle.std.specs.Prelude.{◌≡◌, ◌↔◌, Some};
ghost use Rattle.nbt_node.specs.declared.fault.AskFault.{AskFault};
ghost use Rattle.nbt_node.specs.declared.fault.ReleaseFault.{ReleaseFault};
ghost use Rattle.nbt_node.specs.declared.fault.LookupFault.{LookupFault};
ghost use Rattle.nbt_node.specs.Numbers.{ask_fault_number, ask_fault_word, release_fault_number, release_fault_word, lookup_fault_number, lookup_fault_word};

use thiserror::Error;

/// Why a registration is refused (our profile's numbers). They are tried in this order: `ClockBack`, `BadName`, `Busy`,
/// `Quiet`, `Full`.
#[derive(Clone, Copy, Debug, PartialEq, Eq, Error)]
#[error("{}", self.word())]
pub enum AskFault {
    /// 1: the name is being released, or rests: since the node's start, or since the last sending about it, no more
    /// than `Config::quiet()` has passed by the node's clock, so that an old datagram may still be on its way.
    Quiet,
    /// 2: a registration of the name is pending, or the name is held.
    Busy,
    /// 3: no slot is free.
    Full,
    /// 4: the time is before the node's start, or before that of an earlier call that wasn't refused.
    ClockBack,
    /// 5: the name begins with `*`.
    BadName,
}

impl AskFault {
    /// The number of the fault, 1 to 5 (our profile).
    pub fn number(self) -> u8
        ensures { result ≡ ask_fault_number self }
    {
        match self {
            AskFault::Quiet => 1,
            AskFault::Busy => 2,
            AskFault::Full => 3,
            AskFault::ClockBack => 4,
            AskFault::BadName => 5,
        }
    }

    /// The fault with this number; `None` where none has it.
    pub fn of(number: u8) -> Option<AskFault>
        ensures { (fault : AskFault) → (result ≡ Some fault) ↔ (number ≡ ask_fault_number fault) }
    {
        match number {
            1 => Some(AskFault::Quiet),
            2 => Some(AskFault::Busy),
            3 => Some(AskFault::Full),
            4 => Some(AskFault::ClockBack),
            5 => Some(AskFault::BadName),
            _ => None,
        }
    }

    /// The word by which the fault is printed: its name (our profile).
    pub fn word(self) -> &'static str
        ensures { result.now ≡ ask_fault_word self }
    {
        match self {
            AskFault::Quiet => "Quiet",
            AskFault::Busy => "Busy",
            AskFault::Full => "Full",
            AskFault::ClockBack => "ClockBack",
            AskFault::BadName => "BadName",
        }
    }
}

/// Why a release is refused (our profile's numbers). `ClockBack` is tried first.
#[derive(Clone, Copy, Debug, PartialEq, Eq, Error)]
#[error("{}", self.word())]
pub enum ReleaseFault {
    /// 1: the name isn't held.
    NotHeld,
    /// 4: the time is before the node's start, or before that of an earlier call that wasn't refused.
    ClockBack,
}

impl ReleaseFault {
    /// The number of the fault, 1 or 4 (our profile).
    pub fn number(self) -> u8
        ensures { result ≡ release_fault_number self }
    {
        match self {
            ReleaseFault::NotHeld => 1,
            ReleaseFault::ClockBack => 4,
        }
    }

    /// The fault with this number; `None` where none has it.
    pub fn of(number: u8) -> Option<ReleaseFault>
        ensures { (fault : ReleaseFault) → (result ≡ Some fault) ↔ (number ≡ release_fault_number fault) }
    {
        match number {
            1 => Some(ReleaseFault::NotHeld),
            4 => Some(ReleaseFault::ClockBack),
            _ => None,
        }
    }

    /// The word by which the fault is printed: its name (our profile).
    pub fn word(self) -> &'static str
        ensures { result.now ≡ release_fault_word self }
    {
        match self {
            ReleaseFault::NotHeld => "NotHeld",
            ReleaseFault::ClockBack => "ClockBack",
        }
    }
}

/// Why a lookup is refused (our profile's numbers). They are tried in this order: `ClockBack`, `BadName`, `Busy`.
#[derive(Clone, Copy, Debug, PartialEq, Eq, Error)]
#[error("{}", self.word())]
pub enum LookupFault {
    /// 2: a lookup is open.
    Busy,
    /// 4: the time is before the node's start, or before that of an earlier call that wasn't refused.
    ClockBack,
    /// 5: the name to be resolved begins with `*`.
    BadName,
}

impl LookupFault {
    /// The number of the fault, 2, 4 or 5 (our profile).
    pub fn number(self) -> u8
        ensures { result ≡ lookup_fault_number self }
    {
        match self {
            LookupFault::Busy => 2,
            LookupFault::ClockBack => 4,
            LookupFault::BadName => 5,
        }
    }

    /// The fault with this number; `None` where none has it.
    pub fn of(number: u8) -> Option<LookupFault>
        ensures { (fault : LookupFault) → (result ≡ Some fault) ↔ (number ≡ lookup_fault_number fault) }
    {
        match number {
            2 => Some(LookupFault::Busy),
            4 => Some(LookupFault::ClockBack),
            5 => Some(LookupFault::BadName),
            _ => None,
        }
    }

    /// The word by which the fault is printed: its name (our profile).
    pub fn word(self) -> &'static str
        ensures { result.now ≡ lookup_fault_word self }
    {
        match self {
            LookupFault::Busy => "Busy",
            LookupFault::ClockBack => "ClockBack",
            LookupFault::BadName => "BadName",
        }
    }
}

/// 4: the time is before the node's start, or before that of an earlier call that wasn't refused.
#[derive(Clone, Copy, Debug, PartialEq, Eq, Error)]
#[error("ClockBack")]
pub struct ClockBack;

impl ClockBack {
    /// The number of the refusal, 4 (our profile).
    pub fn number(self) -> u8
        ensures { result ≡ 4 }
    {
        4
    }
}
