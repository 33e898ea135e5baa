//! What a node gives in one event.
ghost use Rattle.std.specs.Prelude.{◌≡◌, ◌∷◌, ◌+◌, ◌<◌, ◌≤◌, [], length, IsOk, OnOk, OnErr};
ghost use Rattle.roc_msg.specs.Outbox.{HoldsSame, HoldsAlso, KeepsRoom, HasRoomFor, HasSent, HasDecided, HasRun};

use crate::Msg;
use roc_base::{NoMemory, Node, TxnId};
use roc_rows::Cell;
use std::alloc::Global;
use std::marker::Model;

/// A message that is to be sent to a node.
#[derive(Drop)]
pub struct Outgoing {
    pub to: Node,
    pub msg: Msg,
}

/// An access of a group that ran: of which transaction, to which cell, and whether it writes.
#[derive(Clone, Copy, Drop)]
pub struct Ran {
    pub id: TxnId,
    pub cell: Cell,
    pub writes: bool,
}

/// The messages that a node sends, in order, the transactions that a server newly decides, in the order in which it takes them, and the
/// accesses of the groups that ran, in the order in which they did. A call appends to it.
#[derive(Drop)]
pub struct Outbox {
    messages: Vec<Outgoing>,
    decided: Vec<TxnId>,
    ran: Vec<Ran>,
}

impl Model for Outbox {
    ghost use Rattle.std.specs.Prelude.{◌-◌, length, vec_capacity};
    ghost use Rattle.roc_msg.specs.Outbox.{Collected};

    ghost Value = { Collected };

    ghost view = { λ o. record {
      messages = o.messages.items;
      decided = o.decided.items;
      ran = o.ran.items;
      room = record {
        messages = vec_capacity o.messages - length o.messages.items;
        decided = vec_capacity o.decided - length o.decided.items;
        ran = vec_capacity o.ran - length o.ran.items;
      };
    } };
}

impl Outbox {
    /// Nothing sent, nothing decided, and no accesses. Takes no memory.
    pub fn new(alloc: Global) -> Outbox
        ensures messages { result.messages ≡ [] }
        ensures decided { result.decided ≡ [] }
        ensures ran { result.ran ≡ [] }
    {
        Outbox {
            messages: Vec::new(alloc),
            decided: Vec::new(alloc),
            ran: Vec::new(alloc),
        }
    }

    /// The messages that are sent, in order.
    pub fn messages(&self) -> &[Outgoing]
        ensures { result.now ≡ self.now.messages }
    {
        self.messages.as_slice()
    }

    /// The transactions that are newly decided, in order.
    pub fn decided(&self) -> &[TxnId]
        ensures { result.now ≡ self.now.decided }
    {
        self.decided.as_slice()
    }

    /// The accesses of the groups that ran, in order.
    pub fn ran(&self) -> &[Ran]
        ensures { result.now ≡ self.now.ran }
    {
        self.ran.as_slice()
    }

    /// The messages, and the transactions that are newly decided. Takes no memory.
    pub fn into_parts(self) -> (Vec<Outgoing>, Vec<TxnId>)
        ensures messages { result.0.items ≡ self.messages }
        ensures decided { result.1.items ≡ self.decided }
    {
        (self.messages, self.decided)
    }

    /// Takes memory ahead, so that so many more messages, decided transactions and accesses cannot fail. What is held stays, whether there
    /// is memory or not. `NoMemory` comes only where there is less room than this.
    pub fn reserve(&mut self, messages: usize, decided: usize, ran: usize) -> Result<(), NoMemory>
        ensures same { HoldsSame self.old self.new }
        ensures messages { OnOk result (messages ≤ self.new.room.messages) }
        ensures decided { OnOk result (decided ≤ self.new.room.decided) }
        ensures ran { OnOk result (ran ≤ self.new.room.ran) }
        ensures succeeds { messages ≤ self.old.room.messages → decided ≤ self.old.room.decided → ran ≤ self.old.room.ran → IsOk result }
        ensures kept { (self.old.room.messages ≤ self.new.room.messages) × ((self.old.room.decided ≤ self.new.room.decided) × (self.old.room.ran ≤ self.new.room.ran)) }
    {
        self.messages.reserve(messages)?;
        self.decided.reserve(decided)?;
        self.ran.reserve(ran)?;
        Ok(())
    }

    /// Adds a message to what is sent. `NoMemory` comes only where there is no room, and leaves what is held.
    pub fn send(&mut self, to: Node, msg: Msg) -> Result<(), NoMemory>
        ensures ok { OnOk result (HasSent self.old self.new (record { to = to; msg = msg } ∷ [])) }
        ensures err { OnErr result (HoldsSame self.old self.new) }
        ensures succeeds { 0 < self.old.room.messages → IsOk result }
        ensures room { self.old.room.messages ≤ self.new.room.messages + 1 }
        ensures others { (self.new.room.decided ≡ self.old.room.decided) × (self.new.room.ran ≡ self.old.room.ran) }
    {
        self.messages.push(Outgoing { to, msg })?;
        Ok(())
    }

    /// Adds transactions to what is decided. `NoMemory` comes only where there is no room for all, and leaves what is held.
    pub fn decide_all(&mut self, ids: &[TxnId]) -> Result<(), NoMemory>
        ensures ok { OnOk result (HasDecided self.old self.new ids.now) }
        ensures err { OnErr result (HoldsSame self.old self.new) }
        ensures succeeds { length ids.now ≤ self.old.room.decided → IsOk result }
        ensures room { self.old.room.decided ≤ self.new.room.decided + length ids.now }
        ensures others { (self.new.room.messages ≡ self.old.room.messages) × (self.new.room.ran ≡ self.old.room.ran) }
    {
        self.decided.extend_from_slice(ids)?;
        Ok(())
    }

    /// Adds an access to what ran. `NoMemory` comes only where there is no room, and leaves what is held.
    pub fn note_ran(&mut self, access: Ran) -> Result<(), NoMemory>
        ensures ok { OnOk result (HasRun self.old self.new (access ∷ [])) }
        ensures err { OnErr result (HoldsSame self.old self.new) }
        ensures succeeds { 0 < self.old.room.ran → IsOk result }
        ensures room { self.old.room.ran ≤ self.new.room.ran + 1 }
        ensures others { (self.new.room.messages ≡ self.old.room.messages) × (self.new.room.decided ≡ self.old.room.decided) }
    {
        self.ran.push(access)?;
        Ok(())
    }

    /// Adds what another one holds: its messages, its decided transactions and its accesses. `NoMemory` comes only where there is no room
    /// for all of them, and leaves what is held.
    pub fn append(&mut self, more: Outbox) -> Result<(), NoMemory>
        ensures ok { OnOk result (HoldsAlso self.old self.new more) }
        ensures err { OnErr result (HoldsSame self.old self.new) }
        ensures succeeds { HasRoomFor self.old more → IsOk result }
        ensures room { OnOk result (KeepsRoom self.old self.new) }
    {
        let Outbox {
            mut messages,
            mut decided,
            mut ran,
        } = more;
        self.reserve(messages.len(), decided.len(), ran.len())?;
        self.messages.append(&mut messages).unwrap();
        self.decided.append(&mut decided).unwrap();
        self.ran.append(&mut ran).unwrap();
        Ok(())
    }
}
