// What an object in memory took, kept as long as there is memory for it.
ghost use Rattle.std.specs.Prelude.{◌≡◌, [], ◌∷◌, Some, None, MatchResult, option_map};
ghost use Rattle.roc_io.specs.Observed.{Adds};

use std::alloc::{AllocError, Global};
use std::marker::Model;

/// A list that grows, seen as that list, or as nothing once memory was wanting for an item.
#[derive(Drop)]
pub struct Kept<T> {
    items: Vec<T>,
    complete: bool,
}

impl<T> Model for Kept<T> {
    ghost use Rattle.std.specs.Prelude.{List, Option, Some, None, if◌then◌else◌};

    ghost Value = { Option (List T) };

    ghost view = { λ k. if k.complete then Some k.items.items else None };
}

impl<T: Drop> Kept<T> {
    /// An empty list.
    pub fn new(alloc: Global) -> Self
        ensures { result ≡ Some [] }
    {
        Kept {
            items: Vec::new(alloc),
            complete: true,
        }
    }

    /// Adds an item, if there is memory for it.
    pub fn push(&mut self, item: T)
        ensures { Adds self.old self.new (item ∷ []) }
    {
        if self.complete {
            self.complete = self.items.push(item).is_ok();
        }
    }

    /// Adds an item that was to be made, if there was memory for it.
    pub fn push_made(&mut self, made: Result<T, AllocError>)
        ensures { MatchResult made (λ item. Adds self.old self.new (item ∷ [])) (λ _. self.new ≡ None) }
    {
        match made {
            Ok(item) => self.push(item),
            Err(_) => self.complete = false,
        }
    }

    /// The items, while they are all there.
    pub fn items(&self) -> Option<&[T]>
        ensures { option_map (λ items. items.now) result ≡ self.now }
    {
        if self.complete {
            Some(&self.items)
        } else {
            None
        }
    }
}

impl Kept<u8> {
    /// Adds bytes, if there is memory for all of them.
    pub fn extend(&mut self, bytes: &[u8])
        ensures { Adds self.old self.new bytes.now }
    {
        if self.complete {
            self.complete = self.items.extend_from_slice(bytes).is_ok();
        }
    }
}
