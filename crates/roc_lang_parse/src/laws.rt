//! Laws of texts and their faults. Each is the contract of a function that does nothing.

ghost use Rattle.std.specs.Prelude.{◌≡◌, ◌≤◌, ◌⊎◌, ℕ, List, length};
ghost use Rattle.roc_lang.specs.Syntax.{Tree};
ghost use Rattle.roc_lang.specs.Tokens.{Token, IsTokens};
ghost use Rattle.roc_lang.specs.Grammar.{Limits, standard, text_limit, IsText};
ghost use Rattle.roc_lang.specs.declared.fault.What.{What};
ghost use Rattle.roc_lang_parse.specs.Fault.{IsWorkloadText, IsFirstFault, GoesOn};
ghost use Rattle.roc_lang_parse.specs.Lexed.{IsLexed};

/// Bytes spell at most one list of tokens: each is as long as it can be.
pub fn tokens_are_unique()
    ensures { (bytes : List ℕ) (some others : List Token) → IsTokens 1 bytes some → IsTokens 1 bytes others → some ≡ others }
{}

/// Bytes are a workload text of at most one tree.
pub fn tree_is_unique()
    ensures { (bytes : List ℕ) (t u : Tree) → IsWorkloadText bytes t → IsWorkloadText bytes u → t ≡ u }
{}

/// Bytes have at most one first fault.
pub fn fault_is_unique()
    ensures { (bytes : List ℕ) (line other : ℕ) (what another : What) → IsFirstFault bytes line what → IsFirstFault bytes other another → (line ≡ other) × (what ≡ another) }
{}

/// A workload text has no fault.
pub fn text_has_no_fault()
    ensures { (bytes : List ℕ) (t : Tree) (line : ℕ) (what : What) → IsWorkloadText bytes t → IsFirstFault bytes line what → ⊥ }
{}

/// Bytes are a workload text, or have a first fault.
pub fn text_or_fault()
    ensures { (bytes : List ℕ) → ((t : Tree) × IsWorkloadText bytes t) ⊎ ((line : ℕ) × (what : What) × IsFirstFault bytes line what) }
{}

/// No text has too many integers in the brackets of an id: bytes that are no more than a text may have, and a text within any limits, are one also where
/// no more integers may stand in brackets than the language lets stand there.
pub fn ids_are_never_too_long()
    ensures { (limits : Limits) (bytes : List ℕ) (tokens : List Token) (t : Tree) → length bytes ≤ text_limit → IsTokens 1 bytes tokens → IsText limits tokens t
        → IsText (record limits { ids = standard.ids }) tokens t }
{}

/// No fault comes of too many integers in the brackets of an id. Bytes that are no more than a text may have begin with some tokens: where a text goes on with
/// these that keeps all other limits, one that keeps them all does.
pub fn ids_are_never_the_fault()
    ensures { (bytes : List ℕ) (before : List Token) (line : ℕ) (rest : List ℕ) (ids : ℕ) → length bytes ≤ text_limit → IsLexed 1 bytes before line rest
        → GoesOn (record standard { ids = ids }) before → GoesOn standard before }
{}
