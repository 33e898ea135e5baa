//! What the program does for its words.
ghost use Rattle.std.specs.Prelude.{◌≡◌, ℕ, ◌<◌, ◌==◌, IsTrue, List, Option, false, map, string_bytes};
ghost use Rattle.roc_book.specs.Call.{book_call};
ghost use Rattle.roc_io.specs.Call.{children_call, link_call};
ghost use Rattle.roc_io.specs.Cause.{HasCause};
ghost use Rattle.roc_cli_words.specs.Answer.{AreWordsOf};
ghost use Rattle.roc_cli_words.specs.Commands.{IsWithin, command_of};
ghost use Rattle.roc_cli_nodes.specs.Call.{run_call, disk_call, LeavesBook};
ghost use Rattle.roc_cli_nodes.specs.Words.{AreLocalWords, NamesJournal, NamesLog, NamesNodes, needs_nodes};
ghost use Rattle.roc_cli.specs.Status.{Answers, IsQuiet, IsUnkept, IsUnlogged};
ghost use Rattle.roc_cli_files.specs.Fault.{blames_file, blames_sink, blames_link, blames_disk, blames_book, Blames, ReadsBut, fails_by};
ghost use Rattle.roc_cli_files.specs.Says.{errors};
ghost use Rattle.roc_cli_nodes.specs.Ends.{precedes_loop, precedes_journal, CountsChildren};
ghost use Rattle.roc_cli.specs.Inner.Ends.{Ends, WholeEnds, fault_of_words};

use crate::auditing::audit_files;
use crate::fit::texts_keep_laws;
use crate::generated::write_generated;
use crate::replaying::replay_files;
use roc_book::Book;
use roc_cli_files::{Fault, check_file, print_file};
use roc_cli_nodes::{launch, needs_nodes};
use roc_cli_words::{Ask, Asked, WordsFault, ask};
use roc_disk::Disk;
use roc_io::{Files, Link, Sink, Spawner};
use std::alloc::Global;

/// Does what the words behind the program's name ask for, and answers the status with which the program is to end. The commands are those
/// of `docs/FORMATS.md`, "The program". Files are read in the order of the words, each judged before the next is read, and behind them a workload to grow to,
/// wherever the words have it; only the lines of a schedule are judged behind that. Then nodes run over the link. Of a workload that is not acceptable, every
/// command but `print` writes the one line that says why to `out`, and `audit` writes there why logs are not explained. Nothing but `err` is told of all else
/// that went wrong, in one line; whether `err` takes it changes no status.
///
/// The status is 4 where memory runs out, which no clause gives a cause.
pub fn run<F: Files, S: Sink, E: Sink, L: Link, P: Spawner, D: Disk, B: Book>(
    alloc: Global,
    words: &[String],
    files: &mut F,
    out: &mut S,
    err: &mut E,
    link: &mut L,
    children: &mut P,
    disk: &mut D,
    book: &mut B,
) -> u8
    // What each status says of the words, of what the named files hold, of what standard output and standard error took, and of the link.
    ensures answers { Answers
        (record {
          run = run_call F.Files S.Sink (map string_bytes words.now) files.old files.new out.old out.new;
          link = link_call L.Link link.old link.new;
          children = children_call P.Spawner children.old children.new;
          disk = disk_call D.Disk disk.old disk.new;
          book = book_call B.Book book.old book.new;
        })
        (errors E.Sink err.old err.new)
        result }
    ensures silent { result < 2 → err.new ≡ err.old }
    ensures unsaid { result ≡ 5 → err.new ≡ err.old }
    ensures unexplained { result ≡ 12 → err.new ≡ err.old }

    // A count of faults rises exactly at the status that blames it.
    ensures file_faults { HasCause (result == 6) (F.faults files.old) (F.faults files.new) }
    ensures sink_faults { HasCause (result == 7) (S.faults out.old) (S.faults out.new) }
    ensures link_faults { HasCause (result == 8) (L.faults link.old) (L.faults link.new) }
    ensures disk_faults { HasCause (result == 10) (D.faults disk.old) (D.faults disk.new) }
    ensures book_faults { HasCause (result == 13) (B.faults book.old) (B.faults book.new) }

    ensures content { (name : List ℕ) → F.content files.new name ≡ F.content files.old name }
    // The link and the children are used by commands with nodes alone, once their files were read.
    ensures quiet { IsQuiet (map string_bytes words.now) result → (link.new ≡ link.old) × (children.new ≡ children.old) }
    // The disk is used by words that name a journal alone, once the files were read and the shard was judged.
    ensures undisked { IsUnkept (map string_bytes words.now) result → disk.new ≡ disk.old }
    // The book is used by words that name a log to keep alone, once the files were read and the journal was opened.
    ensures unbooked { IsUnlogged (map string_bytes words.now) result → LeavesBook (book_call B.Book book.old book.new) }
    // At every status: children are started and awaited by `local` alone.
    ensures unspawned { (AreLocalWords (map string_bytes words.now) → ⊥) → children.new ≡ children.old }
{
    texts_keep_laws();
    match perform(alloc, words, files, out, link, children, disk, book) {
        Ok(()) => 0,
        Err(fault) => fault.tell(alloc, err),
    }
}

// Does what the words ask for.
fn perform<'a, F: Files, S: Sink, L: Link, P: Spawner, D: Disk, B: Book>(
    alloc: Global,
    words: &'a [String],
    files: &mut F,
    out: &mut S,
    link: &mut L,
    children: &mut P,
    disk: &mut D,
    book: &mut B,
) -> Result<(), Fault<'a>>
    ensures ends { WholeEnds (record {
      run = run_call F.Files S.Sink (map string_bytes words.entry.now) files.old files.new out.old out.new;
      link = link_call L.Link link.old link.new;
      children = children_call P.Spawner children.old children.new;
      disk = disk_call D.Disk disk.old disk.new;
      book = book_call B.Book book.old book.new;
    }) result }
    ensures untouched { IsTrue (fails_by precedes_loop result) → (link.new ≡ link.old) × (children.new ≡ children.old) }
    ensures quiet { (NamesNodes (map string_bytes words.entry.now) → ⊥) → (link.new ≡ link.old) × (children.new ≡ children.old) }
    ensures unspawned { (AreLocalWords (map string_bytes words.entry.now) → ⊥) → children.new ≡ children.old }
    ensures unopened { IsTrue (fails_by precedes_journal result) → disk.new ≡ disk.old }
    ensures unkept { ((name : List ℕ) → NamesJournal (map string_bytes words.entry.now) name → ⊥) → disk.new ≡ disk.old }
    ensures unbegun { IsTrue (fails_by precedes_loop result) → LeavesBook (book_call B.Book book.old book.new) }
    ensures unlogged { ((name : List ℕ) → NamesLog (map string_bytes words.entry.now) name → ⊥) → LeavesBook (book_call B.Book book.old book.new) }
    ensures childless { CountsChildren result (P.faults children.old) (P.faults children.new) }
    ensures failed { ReadsBut (F.failed_names files.old) (F.failed_names files.new) result }
    ensures file_faults { HasCause (fails_by blames_file result) (F.faults files.old) (F.faults files.new) }
    ensures sink_faults { HasCause (fails_by blames_sink result) (S.faults out.old) (S.faults out.new) }
    ensures link_faults { HasCause (fails_by blames_link result) (L.faults link.old) (L.faults link.new) }
    ensures disk_faults { HasCause (fails_by blames_disk result) (D.faults disk.old) (D.faults disk.new) }
    ensures book_faults { HasCause (fails_by blames_book result) (B.faults book.old) (B.faults book.new) }
    ensures content { (name : List ℕ) → F.content files.new name ≡ F.content files.old name }
{
    match ask(alloc, words) {
        Ok(asked) => {
            if needs_nodes(asked) {
                launch(alloc, asked, files, out, link, children, disk, book)
            } else {
                perform_alone(alloc, asked, files, out)
            }
        }
        Err(fault) => Err(refusal(fault)),
    }
}

// Why words that ask for nothing end the program.
fn refusal<'a>(fault: WordsFault) -> Fault<'a>
    ensures is { result ≡ fault_of_words fault }
    ensures failed { (names : Option (List (List ℕ))) → Blames names names result }
    ensures no_file { blames_file result ≡ false }
    ensures no_sink { blames_sink result ≡ false }
    ensures no_link { blames_link result ≡ false }
    ensures no_disk { blames_disk result ≡ false }
    ensures no_book { blames_book result ≡ false }
{
    match fault {
        WordsFault::Refused(text) => Fault::Refused(text),
        WordsFault::Value(name) => Fault::Value(name),
        WordsFault::NoMemory => Fault::Memory,
    }
}

// Does what a command without nodes asks for.
fn perform_alone<'a, F: Files, S: Sink>(
    alloc: Global,
    asked: Asked<'a>,
    files: &mut F,
    out: &mut S,
) -> Result<(), Fault<'a>>
    requires alone { needs_nodes (command_of asked) ≡ false }
    requires within { IsWithin (command_of asked) }
    ensures ends { (words : List (List ℕ)) → AreWordsOf words (command_of asked.entry)
        → Ends (run_call F.Files S.Sink words files.old files.new out.old out.new) result }
    ensures failed { ReadsBut (F.failed_names files.old) (F.failed_names files.new) result }
    ensures file_faults { HasCause (fails_by blames_file result) (F.faults files.old) (F.faults files.new) }
    ensures sink_faults { HasCause (fails_by blames_sink result) (S.faults out.old) (S.faults out.new) }
    ensures content { (name : List ℕ) → F.content files.new name ≡ F.content files.old name }
{
    match asked.ask {
        Ask::Replay {
            workload,
            schedule,
            growth,
        } => replay_files(alloc, workload, schedule, growth, files, out),
        Ask::Print { workload } => print_file(alloc, files, workload, out),
        Ask::Check { workload } => check_file(alloc, files, workload, out),
        Ask::Gen {
            seed,
            shards,
            txns,
            part,
        } => write_generated(alloc, seed, shards, txns, part, out),
        Ask::Audit { workload } => {
            audit_files(alloc, workload, asked.logs.as_slice(), files, out)
        }
        Ask::Serve(_) | Ask::Submit(_) | Ask::Stop { .. } | Ask::Local { .. } => unreachable!(),
    }
}
