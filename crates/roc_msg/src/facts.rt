//! Known lists that travel along.
ghost use Rattle.std.specs.Prelude.{◌≡◌, ◌++◌, ◌∷◌, ◌<◌, [], length, vec_len, IsTrue, IfOk, IfErr, OnOk, OnErr};
ghost use Rattle.std.specs.Vec.{vec_capacity};
ghost use Rattle.roc_msg.specs.Facts.{AreFacts, is_behind_facts};

use roc_base::{NoMemory, TxnId};
use roc_depgraph::KnownList;
use roc_sequence::Shared;
use std::alloc::{AllocError, Global};
use std::marker::Model;
use std::mem;

/// How many lists travel along with a message.
pub const MOST_FACTS: usize = 16;

/// How many entries these have together.
pub const MOST_FACT_EDGES: usize = 1000;

/// Lists of predecessors that a message tells besides its own, rising strictly by the ids of their
/// transactions. Its copies share them until one of them is changed.
#[derive(Debug, Drop)]
pub struct Facts {
    alloc: Global,
    lists: Shared<KnownList>,
}

impl Model for Facts {
    ghost use Rattle.std.specs.Prelude.{List};
    ghost use Rattle.roc_depgraph.specs.declared.known.KnownList.{KnownList};
    ghost use Rattle.roc_msg.specs.Facts.{AreFacts};

    ghost Value = { List KnownList };

    ghost view = { λ f. f.lists };

    ghost invariant = { λ f. AreFacts f.lists };
}

impl Facts {
    /// No lists. Takes no memory.
    pub fn new(alloc: Global) -> Facts
        ensures { result ≡ [] }
    {
        Facts {
            alloc,
            lists: Shared::new(alloc),
        }
    }

    /// How many lists there are.
    pub fn len(&self) -> usize
        ensures { result ≡ length self.now }
    {
        self.lists.len()
    }

    /// The lists, rising strictly by id.
    pub fn as_slice(&self) -> &[KnownList]
        ensures lists { result.now ≡ self.now }
        ensures rising { AreFacts self.now }
    {
        self.lists.as_slice()
    }

    /// Whether an id comes behind all that are here, so that its list may be added.
    pub fn is_before(&self, id: TxnId) -> bool
        ensures { result ≡ is_behind_facts self.now id }
    {
        self.lists.as_slice().iter().all(|fact| fact.of < id)
    }

    /// Adds a list at the end. `NoMemory` leaves the lists as they were.
    pub fn push(&mut self, fact: KnownList) -> Result<(), NoMemory>
        requires { IsTrue (is_behind_facts self.old fact.of) }
        ensures ok { OnOk result (self.new ≡ self.old ++ fact ∷ []) }
        ensures err { OnErr result (self.new ≡ self.old) }
    {
        let lists = mem::replace(&mut self.lists, Shared::new(self.alloc));
        match with_room(self.alloc, lists) {
            Ok(mut lists) => {
                lists.push(fact).unwrap();
                self.lists = Shared::from_vec(lists);
                Ok(())
            }
            Err(lists) => {
                self.lists = lists;
                Err(NoMemory)
            }
        }
    }
}

/// A copy is on the same allocator, and has the same lists. It takes no memory, unless there was too little of it as the lists were added.
impl Clone for Facts {
    ghost use Rattle.std.specs.Prelude.{◌≡◌};

    ghost is_clone = { λ from copy. copy ≡ from };

    fn clone(&self) -> Result<Facts, AllocError> {
        let lists = match self.lists.shared() {
            Some(lists) => lists,
            None => Shared::from_vec(copied(self.alloc, self.lists.as_slice())?),
        };
        Ok(Facts {
            alloc: self.alloc,
            lists,
        })
    }
}

impl PartialEq for Facts {
    ghost use Rattle.std.specs.Prelude.{◌≡◌, ◌↔◌, IsTrue};
    ghost use Rattle.roc_msg.specs.Equality.{are_lists};
    ghost use Rattle.roc_msg.specs.Equalities.{lists_per};

    ghost eq = { are_lists };

    ghost laws = { lists_per };

    /// Equal exactly where the lists are.
    fn eq(&self, other: &Facts) -> bool
        ensures test { result ≡ are_lists self.now other.now }
        ensures equal { IsTrue result ↔ (self.now ≡ other.now) }
    {
        self.as_slice() == other.as_slice()
    }
}

impl Eq for Facts {
    ghost use Rattle.roc_msg.specs.Equalities.{lists_equivalence};

    ghost laws = { lists_equivalence };
}

// The lists as a vector with room for one more, or else the lists.
fn with_room(alloc: Global, lists: Shared<KnownList>) -> Result<Vec<KnownList>, Shared<KnownList>>
    ensures lists { IfOk result (λ items. items.items ≡ lists) }
    ensures room { IfOk result (λ items. vec_len items < vec_capacity items) }
    ensures err { IfErr result (λ left. left ≡ lists) }
{
    let mut items = match lists.try_unwrap() {
        Ok(items) => items,
        Err(lists) => match copied(alloc, lists.as_slice()) {
            Ok(items) => items,
            Err(_) => return Err(lists),
        },
    };
    match items.reserve(1) {
        Ok(()) => Ok(items),
        Err(_) => Err(Shared::from_vec(items)),
    }
}

// A copy of each list.
fn copied(alloc: Global, lists: &[KnownList]) -> Result<Vec<KnownList>, AllocError>
    ensures { IfOk result (λ copy. copy.items ≡ lists.now) }
{
    let mut copy = Vec::new(alloc);
    for list in lists {
        copy.push(list.clone()?)?;
    }
    Ok(copy)
}
