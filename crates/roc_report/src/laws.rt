//! Laws of reports, over all lines. Each is the contract of a function that does nothing.
ghost use Rattle.std.specs.Prelude.{◌≡◌, ℕ, List, []};
ghost use Rattle.std.specs.List.{AllByRecursion};
ghost use Rattle.roc_lang.specs.Syntax.{Tree};
ghost use Rattle.roc_lang.specs.Scope.{faults};
ghost use Rattle.roc_lang.specs.Tokens.{Token, IsTokens};
ghost use Rattle.roc_lang.specs.Grammar.{standard, IsText};
ghost use Rattle.roc_program.specs.Program.{Workload};
ghost use Rattle.roc_lang_resolve.specs.Resolve.{resolved};
ghost use Rattle.roc_report.specs.Line.{Line};
ghost use Rattle.roc_report.specs.ReportLine.{HasNames, IsReportLine};
ghost use Rattle.roc_report.specs.Names.{HasWords};
ghost use Rattle.roc_report.specs.Text.{lines_text};

/// A text is that of at most one list of a report's lines, under a program whose names tell its parts apart. So lines that print
/// alike are equal.
pub fn lines_are_unique()
    ensures { (program : Workload) (some others : List Line) → HasNames program → AllByRecursion (IsReportLine program) some → AllByRecursion (IsReportLine program) others
        → lines_text program some ≡ lines_text program others → some ≡ others }
{}

/// The program of a tree in scope is such a program, where the tree's names are words.
pub fn programs_have_names()
    ensures { (t : Tree) → HasWords t → faults t ≡ [] → HasNames (resolved t) }
{}

/// The names of the tree of a text are words.
pub fn texts_have_words()
    ensures { (bytes : List ℕ) (tokens : List Token) (t : Tree) → IsTokens 1 bytes tokens → IsText standard tokens t → HasWords t }
{}
