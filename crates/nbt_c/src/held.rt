//! A node, a name server, a joiner of datagrams, a session's stream, a call, or a listener, in the memory of a program in C.
//!
//! A handle says where the memory is and, as far as contracts see, what stands there, if anything.

ghost use Rattle.std.specs.Prelude.{◌≡◌, Option, Some, IsSome, IsNone};
ghost use Rattle.std.specs.Borrow.{Lends, sem};
ghost use Rattle.nbt_dgram.specs.Joiner.{JoinerValue};
ghost use Rattle.nbt_node.specs.Node.{NodeValue};
ghost use Rattle.nbt_server.specs.Serving.{ServerValue};
ghost use Rattle.nbt_session.specs.Caller.{CallerValue};
ghost use Rattle.nbt_session.specs.Listener.{ListenerValue};
ghost use Rattle.nbt_session.specs.Parts.{PiecesState};

use nbt_dgram::Joiner;
use nbt_node::Node;
use nbt_server::Server;
use nbt_session::{Caller, Listener, Pieces};
use std::marker::Model;

/// A node of so many slots as the library is made for: `tools/c_library` puts 1 or 4 here.
pub(crate) type HeldNode = Node<14>;

/// A node in C's memory.
#[repr(C)]
pub struct CNode {
    at: *mut u8,
    ghost node: { Option NodeValue },
}

impl Model for CNode {
    ghost use Rattle.nbt_c.specs.Memory.{rests_at, node_row};

    ghost also_owns = { λ h. rests_at node_row h.at h.node };
}

impl CNode {
    ghost use Rattle.nbt_c.specs.Memory.{node_row};
    ghost use Rattle.nbt_c.specs.contracts.held.CNode.{the_row};

    /// Puts a node into the memory.
    pub(crate) fn put(&mut self, node: HeldNode)
        requires { IsNone self.old.node }
        ensures { self.new.node ≡ Some node }
    {
        unsafe { (self.at as *mut HeldNode).write(node) };
    }

    /// The node that stands there.
    pub(crate) fn get(&mut self) -> &mut HeldNode
        requires { IsSome self.old.node }
        ensures* writes_back { sem 𝓛 (Lends the_row node_row self.entry result (λ last. record self.entry.now { node = Some last })) }
        ensures value { self.old.node ≡ Some result.now }
    {
        unsafe { &mut *(self.at as *mut HeldNode) }
    }
}

/// A name server in C's memory.
#[repr(C)]
pub struct CServer {
    at: *mut u8,
    ghost server: { Option ServerValue },
}

impl Model for CServer {
    ghost use Rattle.nbt_c.specs.Memory.{rests_at, server_row};

    ghost also_owns = { λ h. rests_at server_row h.at h.server };
}

impl CServer {
    ghost use Rattle.std.specs.Prelude.{None};
    ghost use Rattle.nbt_c.specs.Memory.{server_row};
    ghost use Rattle.nbt_c.specs.contracts.held.CServer.{the_row};

    /// Puts a server into the memory.
    pub(crate) fn put(&mut self, server: Server)
        requires { IsNone self.old.server }
        ensures { self.new.server ≡ Some server }
    {
        unsafe { (self.at as *mut Server).write(server) };
    }

    /// The server that stands there.
    pub(crate) fn get(&mut self) -> &mut Server
        requires { IsSome self.old.server }
        ensures* writes_back { sem 𝓛 (Lends the_row server_row self.entry result (λ last. record self.entry.now { server = Some last })) }
        ensures value { self.old.server ≡ Some result.now }
    {
        unsafe { &mut *(self.at as *mut Server) }
    }

    /// Takes the server out of the memory.
    pub(crate) fn take(&mut self) -> Server
        requires { IsSome self.old.server }
        ensures { (self.old.server ≡ Some result) × (self.new.server ≡ None) }
    {
        unsafe { (self.at as *mut Server).read() }
    }
}

/// A joiner of 4 slots in C's memory.
#[repr(C)]
pub struct CJoiner {
    at: *mut u8,
    ghost joiner: { Option JoinerValue },
}

impl Model for CJoiner {
    ghost use Rattle.nbt_c.specs.Memory.{rests_at, joiner_row};

    ghost also_owns = { λ h. rests_at joiner_row h.at h.joiner };
}

impl CJoiner {
    ghost use Rattle.nbt_c.specs.Memory.{joiner_row};
    ghost use Rattle.nbt_c.specs.contracts.held.CJoiner.{the_row};

    /// Puts a joiner into the memory.
    pub(crate) fn put(&mut self, joiner: Joiner<4>)
        requires { IsNone self.old.joiner }
        ensures { self.new.joiner ≡ Some joiner }
    {
        unsafe { (self.at as *mut Joiner<4>).write(joiner) };
    }

    /// The joiner that stands there.
    pub(crate) fn get(&mut self) -> &mut Joiner<4>
        requires { IsSome self.old.joiner }
        ensures* writes_back { sem 𝓛 (Lends the_row joiner_row self.entry result (λ last. record self.entry.now { joiner = Some last })) }
        ensures value { self.old.joiner ≡ Some result.now }
    {
        unsafe { &mut *(self.at as *mut Joiner<4>) }
    }
}

/// A session's stream in C's memory.
#[repr(C)]
pub struct CPieces {
    at: *mut u8,
    ghost pieces: { Option PiecesState },
}

impl Model for CPieces {
    ghost use Rattle.nbt_c.specs.Memory.{rests_at, pieces_row};

    ghost also_owns = { λ h. rests_at pieces_row h.at h.pieces };
}

impl CPieces {
    ghost use Rattle.nbt_c.specs.Memory.{pieces_row};
    ghost use Rattle.nbt_c.specs.contracts.held.CPieces.{the_row};

    /// Puts a stream into the memory.
    pub(crate) fn put(&mut self, pieces: Pieces)
        requires { IsNone self.old.pieces }
        ensures { self.new.pieces ≡ Some pieces }
    {
        unsafe { (self.at as *mut Pieces).write(pieces) };
    }

    /// The stream that stands there.
    pub(crate) fn get(&mut self) -> &mut Pieces
        requires { IsSome self.old.pieces }
        ensures* writes_back { sem 𝓛 (Lends the_row pieces_row self.entry result (λ last. record self.entry.now { pieces = Some last })) }
        ensures value { self.old.pieces ≡ Some result.now }
    {
        unsafe { &mut *(self.at as *mut Pieces) }
    }
}

/// A call of a session in C's memory.
#[repr(C)]
pub struct CCaller {
    at: *mut u8,
    ghost caller: { Option CallerValue },
}

impl Model for CCaller {
    ghost use Rattle.nbt_c.specs.Memory.{rests_at, caller_row};

    ghost also_owns = { λ h. rests_at caller_row h.at h.caller };
}

impl CCaller {
    ghost use Rattle.nbt_c.specs.Memory.{caller_row};
    ghost use Rattle.nbt_c.specs.contracts.held.CCaller.{the_row};

    /// Puts a call into the memory.
    pub(crate) fn put(&mut self, caller: Caller)
        requires { IsNone self.old.caller }
        ensures { self.new.caller ≡ Some caller }
    {
        unsafe { (self.at as *mut Caller).write(caller) };
    }

    /// The call that stands there.
    pub(crate) fn get(&mut self) -> &mut Caller
        requires { IsSome self.old.caller }
        ensures* writes_back { sem 𝓛 (Lends the_row caller_row self.entry result (λ last. record self.entry.now { caller = Some last })) }
        ensures value { self.old.caller ≡ Some result.now }
    {
        unsafe { &mut *(self.at as *mut Caller) }
    }
}

/// A listener of 14 entries and 8 connections in C's memory.
#[repr(C)]
pub struct CListener {
    at: *mut u8,
    ghost listener: { Option ListenerValue },
}

impl Model for CListener {
    ghost use Rattle.nbt_c.specs.Memory.{rests_at, listener_row};

    ghost also_owns = { λ h. rests_at listener_row h.at h.listener };
}

impl CListener {
    ghost use Rattle.nbt_c.specs.Memory.{listener_row};
    ghost use Rattle.nbt_c.specs.contracts.held.CListener.{the_row};

    /// Puts a listener into the memory.
    pub(crate) fn put(&mut self, listener: Listener<14, 8>)
        requires { IsNone self.old.listener }
        ensures { self.new.listener ≡ Some listener }
    {
        unsafe { (self.at as *mut Listener<14, 8>).write(listener) };
    }

    /// The listener that stands there.
    pub(crate) fn get(&mut self) -> &mut Listener<14, 8>
        requires { IsSome self.old.listener }
        ensures* writes_back { sem 𝓛 (Lends the_row listener_row self.entry result (λ last. record self.entry.now { listener = Some last })) }
        ensures value { self.old.listener ≡ Some result.now }
    {
        unsafe { &mut *(self.at as *mut Listener<14, 8>) }
    }
}
