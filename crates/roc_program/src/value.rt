//! Values of expressions.
ghost use Rattle.std.specs.Prelude.{◌≡◌};
ghost use Rattle.roc_program.specs.Keys.{IsKey};
ghost use Rattle.roc_program.specs.Values.{value, key_of};
ghost use Rattle.roc_program.specs.Parts.{expression, access};

use crate::{Access, Expression};
use roc_base::Key;

impl Expression {
    /// The value where the names have the given ones, by number. A number past their end has 0.
    /// Takes no memory. Every operand is evaluated; depth is at most 32 where the text was read.
    pub fn value(&self, names: &[i64]) -> i64
        ensures { result ≡ value (expression self.now) names.now }
    {
        match self {
            Expression::Number(number) => *number,
            Expression::Value(number) => names.get(*number as usize).copied().unwrap_or(0),
            Expression::Sum(first, second) => first.value(names).wrapping_add(second.value(names)),
            Expression::Difference(first, second) => {
                first.value(names).wrapping_sub(second.value(names))
            }
            Expression::Product(first, second) => {
                first.value(names).wrapping_mul(second.value(names))
            }
            Expression::Minimum(first, second) => first.value(names).min(second.value(names)),
            Expression::Maximum(first, second) => first.value(names).max(second.value(names)),
            Expression::Less(first, second) => i64::from(first.value(names) < second.value(names)),
            Expression::Pick(chooser, first, second) => {
                let chosen = chooser.value(names);
                let first = first.value(names);
                let second = second.value(names);
                if chosen != 0 { first } else { second }
            }
        }
    }
}

impl Access {
    /// The id of the row where the names have the given values, by number. Takes no memory.
    pub fn key(&self, names: &[i64]) -> Key
        requires { IsKey (access self.now).id }
        ensures { result ≡ key_of (access self.now) names.now }
    {
        let mut integers = [0; 4];
        let count = self.id.len();
        for at in 0..count {
            integers[at] = self.id[at].value(names);
        }
        Key::from_slice(&integers[..count])
    }
}
