// A child that was started, with its words.
ghost use Rattle.std.specs.Prelude.{◌≡◌, map, string_bytes};

use roc_io::Child;
use std::marker::Model;

/// A child that was started, with the words of its start.
#[derive(Drop)]
pub struct ChildStart {
    child: Child,
    words: Vec<String>,
}

impl Model for ChildStart {
    ghost use Rattle.std.specs.Prelude.{map, string_bytes};
    ghost use Rattle.roc_io.specs.Start.{Start};

    ghost Value = { Start };

    ghost view = { λ s. record { child = s.child; words = map string_bytes s.words.items } };
}

impl ChildStart {
    /// A start of this child with these words.
    pub fn new(child: Child, words: Vec<String>) -> Self
        ensures { result ≡ record { child = child; words = map string_bytes words.items } }
    {
        ChildStart { child, words }
    }

    /// The child.
    pub fn child(&self) -> Child
        ensures { result ≡ self.now.child }
    {
        self.child
    }

    /// The words.
    pub fn words(&self) -> &[String]
        ensures { map string_bytes result.now ≡ self.now.words }
    {
        &self.words
    }
}
