//! A machine, as it says itself which addresses it has.

ghost use Rattle.std.specs.Prelude.{◌≡◌, ◌≢◌, ◌↔◌, ◌*◌, ◌≤◌, nat_eq, length, Contains, IsSome, IfSome, IsTrue};
ghost use Rattle.std.specs.List.{list_any};
ghost use Rattle.nbt_confirm.specs.Inquiries.{ConfirmedValue, IsFurther, entries_most, machine_by, response_of};
ghost use Rattle.nbt_confirm.specs.Waiting.{answer_of, lists};

use crate::inquiry::Inquiry;
use crate::outcome::Answer;
use crate::request::Request;
use crate::response::{ENTRIES_MOST, Response, listed_in};
use arrayvec::ArrayVec;
use nbt_name::{Kind, Name};
use std::marker::Model;

/// A machine: the addresses at which it has a name, as it listed them itself when it was asked at one of them. Only
/// [`Waits::hear`](crate::Waits::hear) gives one, of a response that answers an inquiry under way.
#[derive(Debug, Drop)]
pub struct Machine {
    name: Name,
    kind: Kind,
    asked: u32,
    addrs: ArrayVec<u32, ENTRIES_MOST>,
}

impl Model for Machine {
    ghost use Rattle.nbt_confirm.specs.Inquiries.{MachineValue};

    ghost Value = { MachineValue };

    ghost view = { λ m. record { name = m.name; kind = m.kind; asked = m.asked; addrs = m.addrs.items } };
}

impl Machine {
    /// The machine that a response to this inquiry is of.
    pub(crate) fn by(inquiry: Inquiry, response: &Response<'_>) -> Machine
        requires { length (response_of response.now).entries ≤ 6 * entries_most }
        ensures { result ≡ machine_by inquiry (response_of response.now) }
    {
        let addrs = listed_in(inquiry.kind, response.entries);
        Machine {
            name: inquiry.name,
            kind: inquiry.kind,
            asked: inquiry.asked,
            addrs,
        }
    }

    /// The name that it was asked about.
    pub fn name(&self) -> &Name
        ensures { result.now ≡ self.now.name }
    {
        &self.name
    }

    /// The kind of name that it was asked about.
    pub fn kind(&self) -> Kind
        ensures { result ≡ self.now.kind }
    {
        self.kind
    }

    /// The 32-bit address at which it was asked.
    pub fn asked(&self) -> u32
        ensures { result ≡ self.now.asked }
    {
        self.asked
    }

    /// The 32-bit addresses that it listed, in the response's order: at most 86.
    pub fn addrs(&self) -> &[u32]
        ensures { result.now ≡ self.now.addrs }
    {
        self.addrs.as_slice()
    }

    /// Whether it listed this address.
    pub fn has(&self, addr: u32) -> bool
        ensures { IsTrue result ↔ Contains self.now.addrs addr }
    {
        self.addrs.as_slice().contains(&addr)
    }

    /// What it said of a request's addresses: `Listed` where it listed the address that the request is for, and the one that sent
    /// it; else `Unlisted`.
    pub fn answer(&self, request: &Request) -> Answer
        ensures { result ≡ answer_of self.now request.now }
    {
        if self.lists(request) {
            Answer::Listed
        } else {
            Answer::Unlisted
        }
    }

    /// Whether it listed the address that a request is for, and the one that sent it.
    fn lists(&self, request: &Request) -> bool
        ensures { result ≡ lists self.now request.now }
    {
        self.lists_one(request.addr) && self.lists_one(request.from.ip)
    }

    /// Whether one of the addresses is this.
    fn lists_one(&self, addr: u32) -> bool
        ensures { result ≡ list_any (λ other. nat_eq other addr) self.now.addrs }
    {
        self.addrs.as_slice().iter().any(|other| *other == addr)
    }

    /// The further address that this is: none if the machine didn't list it, or was asked at it.
    pub fn further(&self, addr: u32) -> Option<Confirmed>
        ensures found { IsSome result ↔ (Contains self.now.addrs addr × (addr ≢ self.now.asked)) }
        ensures further { IfSome result (IsFurther self.now) }
        ensures addr { IfSome result (λ c. c.addr ≡ addr) }
    {
        if !self.has(addr) || addr == self.asked {
            return None;
        }
        Some(Confirmed {
            name: self.name.copy(),
            holder: self.asked,
            addr,
        })
    }
}

/// A further address of the machine of a name's holder, which that machine listed itself. Only [`Machine::further`] gives one.
#[derive(Debug, Drop)]
pub struct Confirmed {
    name: Name,
    holder: u32,
    addr: u32,
}

impl Model for Confirmed {
    ghost use Rattle.nbt_confirm.specs.Inquiries.{ConfirmedValue};

    ghost Value = { ConfirmedValue };

    ghost view = { λ c. record { name = c.name; holder = c.holder; addr = c.addr } };
}

impl Confirmed {
    /// The name.
    pub fn name(&self) -> &Name
        ensures { result.now ≡ self.now.name }
    {
        &self.name
    }

    /// The holder's 32-bit address, at which the machine was asked.
    pub fn holder(&self) -> u32
        ensures { result ≡ self.now.holder }
    {
        self.holder
    }

    /// The further 32-bit address.
    pub fn addr(&self) -> u32
        ensures { result ≡ self.now.addr }
    {
        self.addr
    }
}
