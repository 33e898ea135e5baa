//! A law of texts: the contract of a function that does nothing.
ghost use Rattle.std.specs.Prelude.{List};
ghost use Rattle.roc_lang.specs.Tokens.{Token};
ghost use Rattle.roc_lang.specs.Grammar.{standard, IsText};
ghost use Rattle.roc_lang.specs.Syntax.{Tree};
ghost use Rattle.roc_lang.specs.Limits.{IsWithinLimits};

/// The tree of a text is within the limits.
pub fn texts_are_within_limits()
    ensures { (tokens : List Token) (t : Tree) → IsText standard tokens t → IsWithinLimits t }
{}
