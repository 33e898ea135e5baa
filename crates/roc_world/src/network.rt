//! The messages that were sent, the file of each, and which of them were never delivered.
ghost use Rattle.std.specs.Prelude.{◌≡◌, ◌+◌, ◌-◌, ◌<◌, ◌≤◌, ◌==◌, not, Some, [], ◌∷◌, ◌++◌, length, map, filter, slice_get, OnOk};
ghost use Rattle.std.specs.List.{range_with_len};
ghost use Rattle.roc_two_files.specs.Sealed.{sealed_by, numbers_behind, Sealed};
ghost use Rattle.roc_growth.specs.Quiet.{messages_of};
ghost use Rattle.roc_world.specs.Reads.{files_of};
ghost use Rattle.roc_world.specs.Inner.Messages.{sealed_all, AreNumbered, AreSealed};

use roc_base::{NoMemory, Node};
use roc_epoch::{File, file_of};
use roc_msg::{Envelope, Outgoing};
use std::alloc::Global;
use std::marker::Model;

/// Every message ever sent, numbered from 1, with its file, and the numbers of those that were never delivered.
#[derive(Drop)]
pub(crate) struct Network {
    /// The file of each message.
    files: Vec<File>,
    sent: Vec<Envelope>,
    undelivered: Vec<u64>,
}

impl Model for Network {
    ghost use Rattle.roc_world.specs.Inner.Messages.{sealed_all, AreSealed, Messages};

    ghost Value = { Messages };

    ghost view = { λ n. record { sent = sealed_all n.files.items n.sent.items; undelivered = n.undelivered.items } };

    ghost invariant = { λ n. AreSealed n.files.items n.sent.items n.undelivered.items };
}

impl Network {
    /// Nothing sent. Takes no memory.
    pub fn new(alloc: Global) -> Network
        ensures { result ≡ record { sent = []; undelivered = [] } }
    {
        Network {
            files: Vec::new(alloc),
            sent: Vec::new(alloc),
            undelivered: Vec::new(alloc),
        }
    }

    /// Every message ever sent. Takes no memory.
    pub fn sent(&self) -> &[Envelope]
        ensures { result.now ≡ messages_of self.now.sent }
    {
        &self.sent
    }

    /// The file of each of them. Takes no memory.
    pub fn files(&self) -> &[File]
        ensures { result.now ≡ files_of self.now.sent }
    {
        &self.files
    }

    /// One of them. Takes no memory.
    pub fn message(&self, number: u64) -> &Envelope
        requires some { 0 < number }
        requires sent { number ≤ length self.now.sent }
        ensures { (m : Sealed) → slice_get self.now.sent (number - 1) ≡ Some m → result.now ≡ m.message }
    {
        &self.sent[(number - 1) as usize]
    }

    /// Its file. Takes no memory.
    pub fn file(&self, number: u64) -> File
        requires some { 0 < number }
        requires sent { number ≤ length self.now.sent }
        ensures { (m : Sealed) → slice_get self.now.sent (number - 1) ≡ Some m → result ≡ m.file }
    {
        self.files[(number - 1) as usize]
    }

    /// The numbers of those that were never delivered, rising. Takes no memory.
    pub fn undelivered(&self) -> &[u64]
        ensures { result.now ≡ self.now.undelivered }
    {
        &self.undelivered
    }

    /// Notes that a message was delivered. It stays among those that were sent. Takes no memory.
    pub fn note_delivery(&mut self, number: u64)
        ensures { self.new ≡ record self.old { undelivered = filter (λ n. not (n == number)) self.old.undelivered } }
    {
        let count = self.sent.len();
        take_out(&mut self.undelivered, count, number);
    }

    /// Adds the messages that a node sends, sealed by its own file, which is the second where it has switched. `NoMemory` may leave some added.
    pub fn add(
        &mut self,
        switched: bool,
        from: Node,
        messages: Vec<Outgoing>,
    ) -> Result<(), NoMemory>
        ensures sent { OnOk result (self.new.sent ≡ self.old.sent ++ map (sealed_by switched from) messages.items) }
        ensures undelivered { OnOk result (self.new.undelivered ≡ self.old.undelivered ++ numbers_behind self.old.sent (length messages.items)) }
    {
        add_all(
            &mut self.files,
            &mut self.sent,
            &mut self.undelivered,
            switched,
            from,
            messages,
        )
    }
}

// Takes a number out, where it is there. The numbers are of the first so many messages.
fn take_out(numbers: &mut Vec<u64>, count: usize, number: u64)
    requires numbered { AreNumbered count numbers.old.items }
    ensures numbered { AreNumbered count numbers.new.items }
    ensures others { numbers.new.items ≡ filter (λ n. not (n == number)) numbers.old.items }
{
    if let Ok(at) = numbers.binary_search(&number) {
        numbers.remove(at);
    }
}

// Adds messages, their files and their numbers.
fn add_all(
    files: &mut Vec<File>,
    sent: &mut Vec<Envelope>,
    undelivered: &mut Vec<u64>,
    switched: bool,
    from: Node,
    messages: Vec<Outgoing>,
) -> Result<(), NoMemory>
    requires sealed { AreSealed files.old.items sent.old.items undelivered.old.items }
    ensures sealed { AreSealed files.new.items sent.new.items undelivered.new.items }
    ensures sent { OnOk result (sealed_all files.new.items sent.new.items ≡ sealed_all files.old.items sent.old.items ++ map (sealed_by switched from) messages.items) }
    ensures undelivered { OnOk result (undelivered.new.items ≡ undelivered.old.items ++ range_with_len (length sent.old.items + 1) (length messages.items)) }
{
    for message in messages {
        add_one(files, sent, undelivered, switched, from, message)?;
    }
    Ok(())
}

// Adds one message, its file and its number, the message first, so that each number is always of one.
fn add_one(
    files: &mut Vec<File>,
    sent: &mut Vec<Envelope>,
    undelivered: &mut Vec<u64>,
    switched: bool,
    from: Node,
    message: Outgoing,
) -> Result<(), NoMemory>
    requires sealed { AreSealed files.old.items sent.old.items undelivered.old.items }
    ensures sealed { AreSealed files.new.items sent.new.items undelivered.new.items }
    ensures count { OnOk result (length sent.new.items ≡ length sent.old.items + 1) }
    ensures sent { OnOk result (sealed_all files.new.items sent.new.items ≡ sealed_all files.old.items sent.old.items ++ sealed_by switched from message ∷ []) }
    ensures undelivered { OnOk result (undelivered.new.items ≡ undelivered.old.items ++ (length sent.old.items + 1) ∷ []) }
{
    let Outgoing { to, msg } = message;
    let file = file_of(switched, &msg);
    files.reserve(1)?;
    sent.push(Envelope { from, to, msg })?;
    files.push(file).unwrap();
    undelivered.push(sent.len() as u64)?;
    Ok(())
}
