//! The value of an expression where a group knows some names before it runs, without memory.
ghost use Rattle.std.specs.Prelude.{◌≡◌, ◌<◌, ◌≤◌, length};
ghost use Rattle.std.specs.List.{AllByRecursion};
ghost use Rattle.roc_program.specs.Parts.{expression};
ghost use Rattle.roc_plan.specs.Groups.{with_values};
ghost use Rattle.roc_plan.specs.Inner.Agreeing.{IsValueWith};

use roc_program::Expression;

// How many names a procedure has at most: its arguments, and one for each statement.
const NAMES: usize = 8 + 16 * 64;

/// The value of a place where the arguments are known, each other name is 0, but these names have these values. Takes no
/// memory.
pub fn value_with(place: &Expression, args: &[i64], names: &[u16], values: &[i64]) -> i64
    requires few { length args.now ≤ 1032 }
    requires known { AllByRecursion (λ name. name < 1032) names.now }
    requires values { length values.now ≡ length names.now }
    ensures { IsValueWith (expression place.now) args.now names.now values.now result }
{
    if names.is_empty() {
        place.value(args)
    } else {
        value_in_table(place, args, names, values)
    }
}

// The same by a table of all names. It stands alone, since whoever has the table pays for its size at entry.
#[inline(never)]
fn value_in_table(place: &Expression, args: &[i64], names: &[u16], values: &[i64]) -> i64
    requires few { length args.now ≤ 1032 }
    requires known { AllByRecursion (λ name. name < 1032) names.now }
    requires values { length values.now ≡ length names.now }
    ensures { IsValueWith (expression place.now) args.now names.now values.now result }
{
    let mut known = [0; NAMES];
    known[..args.len()].copy_from_slice(args);
    set_values(&mut known, names, values);
    place.value(&known)
}

/// Gives these names these values.
pub fn set_values(known: &mut [i64], names: &[u16], values: &[i64])
    requires known { AllByRecursion (λ name. name < length known.old) names.now }
    requires values { length values.now ≡ length names.now }
    ensures { known.new ≡ with_values names.now values.now known.old }
{
    for at in 0..names.len() {
        known[usize::from(names[at])] = values[at];
    }
}
