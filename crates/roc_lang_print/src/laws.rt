//! The law of canonical texts. It is the contract of a function that does nothing.

ghost use Rattle.std.specs.Prelude.{◌≡◌, ◌≤◌, ℕ, List, length};
ghost use Rattle.roc_lang.specs.Syntax.{Tree};
ghost use Rattle.roc_lang.specs.Grammar.{text_limit};
ghost use Rattle.roc_lang_parse.specs.Fault.{IsWorkloadText};
ghost use Rattle.roc_lang_print.specs.Canonical.{canonical};
ghost use Rattle.roc_lang_print.specs.UpToLines.{without_lines};

/// The canonical text of a workload text's tree, if it is within the limit of bytes, is a workload text of the same tree
/// up to lines. With the clause `only` of `parse` this means: for each source that `parse` gave and whose canonical text
/// is within that limit, parsing what `print` writes gives the same tree up to lines, unless memory runs out.
pub fn canonical_text_is_parsed()
    ensures { (bytes : List ℕ) (t : Tree) → IsWorkloadText bytes t → length (canonical t) ≤ text_limit
        → (u : Tree) × IsWorkloadText (canonical t) u × (without_lines u ≡ without_lines t) }
{}
