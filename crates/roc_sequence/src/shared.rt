//! A list that copies share.
ghost use Rattle.std.specs.Prelude.{◌≡◌, ◌≤◌, ◌+◌, ◌==◌, ◌++◌, [], length, vec_len, OnOk, OnErr, IfOk, IfErr, IfSome};
ghost use Rattle.std.specs.Vec.{vec_capacity};

use std::alloc::{AllocError, Global};
use std::marker::Model;
use std::rc::Rc;
use std::{fmt, mem};

/// A list of values, in order. Its copies are one list in memory, until one of them is changed.
#[derive(Drop)]
pub struct Shared<T> {
    items: Items<T>,
}

// A list has one owner alone where it is empty, and where there was no memory for a count of owners.
#[derive(Drop)]
enum Items<T> {
    Own(Vec<T>),
    Common(Rc<Vec<T>>),
}

impl<T> Model for Shared<T> {
    ghost use Rattle.std.specs.Prelude.{List};
    ghost use Rattle.roc_sequence.specs.Inner.Shown.{shown};

    ghost Value = { List T };

    ghost view = { λ s. shown s.items };
}

impl<T> Shared<T> {
    /// No elements. Takes no memory.
    pub fn new(alloc: Global) -> Shared<T>
        ensures { result ≡ [] }
    {
        Shared {
            items: Items::Own(Vec::new(alloc)),
        }
    }

    /// How many elements there are.
    pub fn len(&self) -> usize
        ensures { result ≡ length self.now }
    {
        self.as_slice().len()
    }

    /// Whether there are none.
    pub fn is_empty(&self) -> bool
        ensures { result ≡ (length self.now == 0) }
    {
        self.as_slice().is_empty()
    }

    /// The elements.
    pub fn as_slice(&self) -> &[T]
        ensures { result.now ≡ self.now }
    {
        match &self.items {
            Items::Own(items) => items.as_slice(),
            Items::Common(items) => items.as_slice(),
        }
    }

    // Where the elements are.
    fn allocator(&self) -> Global {
        match &self.items {
            Items::Own(items) => *items.allocator(),
            Items::Common(items) => *items.allocator(),
        }
    }
}

impl<T: Drop> Shared<T> {
    /// The elements of a vector. It takes a little memory, so that copies can share them; where there is none, a copy will take it.
    pub fn from_vec(items: Vec<T>) -> Shared<T>
        ensures { result ≡ items.items }
    {
        if items.is_empty() {
            return Shared {
                items: Items::Own(items),
            };
        }
        let alloc = *items.allocator();
        let common: Result<_, _> = Rc::new(alloc, items);
        let items = match common {
            Ok(items) => Items::Common(items),
            Err(failed) => Items::Own(failed.value),
        };
        Shared { items }
    }

    /// A copy that takes no memory; none, where the list is one owner's alone.
    pub fn shared(&self) -> Option<Shared<T>>
        ensures { IfSome result (λ copy. copy ≡ self.now) }
    {
        let Items::Common(items) = &self.items else {
            return None;
        };
        let copy: Result<_, _> = items.clone();
        match copy {
            Ok(items) => Some(Shared {
                items: Items::Common(items),
            }),
            Err(_) => None,
        }
    }

    /// The elements as a vector, if no copy shares them, and else the list. Takes no memory.
    pub fn try_unwrap(self) -> Result<Vec<T>, Shared<T>>
        ensures ok { IfOk result (λ items. items.items ≡ self) }
        ensures err { IfErr result (λ list. list ≡ self) }
    {
        match self.items {
            Items::Own(items) => Ok(items),
            Items::Common(items) => match Rc::try_unwrap(items) {
                Ok(items) => Ok(items),
                Err(items) => Err(Shared {
                    items: Items::Common(items),
                }),
            },
        }
    }
}

impl<T: Copy> Shared<T> {
    /// Takes the elements out, with room for so many more, and leaves none. They are copied where a copy shares them.
    /// Without memory the list stays as it was.
    pub fn take(&mut self, more: usize) -> Result<Vec<T>, AllocError>
        ensures items { IfOk result (λ items. items.items ≡ self.old) }
        ensures room { IfOk result (λ items. vec_len items + more ≤ vec_capacity items) }
        ensures none { OnOk result (self.new ≡ []) }
        ensures err { OnErr result (self.new ≡ self.old) }
    {
        let none = Shared::new(self.allocator());
        match with_room(mem::replace(self, none), more) {
            Ok(items) => Ok(items),
            Err(list) => {
                *self = list;
                Err(AllocError)
            }
        }
    }

    /// Adds elements at the end. Without memory the list stays as it was.
    pub fn extend_from_slice(&mut self, added: &[T]) -> Result<(), AllocError>
        ensures ok { OnOk result (self.new ≡ self.old ++ added.now) }
        ensures err { OnErr result (self.new ≡ self.old) }
    {
        if let Items::Common(items) = &mut self.items {
            if let Some(items) = Rc::get_mut(items) {
                return items.extend_from_slice(added);
            }
        }
        let mut items = self.take(added.len())?;
        items.extend_from_slice(added).unwrap();
        *self = Shared::from_vec(items);
        Ok(())
    }
}

/// A copy is the same list. It takes no memory, if there was some as the list was made.
impl<T: Copy> Clone for Shared<T> {
    ghost use Rattle.std.specs.Prelude.{◌≡◌};

    ghost is_clone = { λ from copy. copy ≡ from };

    fn clone(&self) -> Result<Shared<T>, AllocError> {
        match self.shared() {
            Some(copy) => Ok(copy),
            None => {
                let items = Vec::from_slice(self.allocator(), self.as_slice())?;
                Ok(Shared::from_vec(items))
            }
        }
    }
}

impl<T: fmt::Debug> fmt::Debug for Shared<T> {
    fn fmt<W: fmt::Write>(&self, f: &mut fmt::Formatter<W>) -> fmt::Result {
        f.debug_list().slice(self.as_slice()).finish()
    }
}

// The elements as a vector with room for so many more, or else the list.
fn with_room<T: Copy>(list: Shared<T>, more: usize) -> Result<Vec<T>, Shared<T>>
    ensures items { IfOk result (λ items. items.items ≡ list) }
    ensures room { IfOk result (λ items. vec_len items + more ≤ vec_capacity items) }
    ensures err { IfErr result (λ left. left ≡ list) }
{
    match list.try_unwrap() {
        Ok(mut items) => match items.reserve(more) {
            Ok(()) => Ok(items),
            Err(_) => Err(Shared::from_vec(items)),
        },
        Err(list) => match copied_with_room(list.allocator(), list.as_slice(), more) {
            Ok(items) => Ok(items),
            Err(_) => Err(list),
        },
    }
}

// A copy of elements, with room for so many more.
fn copied_with_room<T: Copy>(alloc: Global, items: &[T], more: usize) -> Result<Vec<T>, AllocError>
    ensures items { IfOk result (λ copy. copy.items ≡ items.now) }
    ensures room { IfOk result (λ copy. vec_len copy + more ≤ vec_capacity copy) }
{
    let mut copy = Vec::new(alloc);
    copy.reserve(items.len())?;
    copy.extend_from_slice(items)?;
    copy.reserve(more)?;
    Ok(copy)
}
