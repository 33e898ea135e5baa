// A child.
ghost use Rattle.std.specs.Prelude.{◌≡◌};

use std::marker::Model;

/// A child, by a number that its spawner gave it. Seen as that number.
#[derive(Clone, Copy, Debug, PartialEq, Eq)]
pub struct Child {
    number: u64,
}

impl Model for Child {
    ghost use Rattle.std.specs.Prelude.{ℕ};

    ghost Value = { ℕ };

    ghost view = { λ c. c.number };

    ghost inverse = { λ n. record { number = n } };
}

impl Child {
    /// The child with this number.
    pub fn new(number: u64) -> Self
        ensures { result ≡ number }
    {
        Child { number }
    }

    /// Its number.
    pub fn number(self) -> u64
        ensures { result ≡ self }
    {
        self.number
    }
}
