//! The commands with nodes among all.
ghost use Rattle.std.specs.Prelude.{◌≡◌, ℕ, List, None, IsTrue};
ghost use Rattle.roc_book.specs.Call.{book_call};
ghost use Rattle.roc_io.specs.Call.{children_call, link_call};
ghost use Rattle.roc_io.specs.Cause.{HasCause};
ghost use Rattle.roc_cli_words.specs.Answer.{AreWordsOf};
ghost use Rattle.roc_cli_words.specs.Commands.{IsWithin, command_of};
ghost use Rattle.roc_cli_files.specs.Fault.{blames_file, blames_sink, blames_link, blames_disk, blames_book, fails_by, ReadsBut};
ghost use Rattle.roc_cli_nodes.specs.Call.{run_call, disk_call, LeavesBook};
ghost use Rattle.roc_cli_nodes.specs.Words.{needs_nodes, journal_of, log_of, AreLocalWords};
ghost use Rattle.roc_cli_nodes.specs.Ends.{precedes_loop, precedes_journal, IsLaunched, CountsChildren};

use crate::running::{local_files, stop_files, submit_files};
use crate::serving::serve_files;
use roc_book::Book;
use roc_cli_files::Fault;
use roc_cli_words::{Ask, Asked};
use roc_disk::Disk;
use roc_io::{Files, Link, Sink, Spawner};
use std::alloc::Global;

/// Whether the command is one with nodes, which [`launch`] runs.
pub fn needs_nodes<'a>(asked: Asked<'a>) -> bool
    ensures { result ≡ needs_nodes (command_of asked.entry) }
{
    match asked.ask {
        Ask::Serve(_) | Ask::Submit(_) | Ask::Stop { .. } | Ask::Local { .. } => true,
        Ask::Check { .. }
        | Ask::Print { .. }
        | Ask::Replay { .. }
        | Ask::Gen { .. }
        | Ask::Audit { .. } => false,
    }
}

/// Runs a command with nodes: reads its files in the order of the words, each judged before the next is read, those of growth last, and then runs its loop over
/// the link: that of nodes which may go over to a grown workload, where one is named.
///
/// Where the files do not hold what the command needs, the fault is that of [`nodes_of`](roc_cli_files::nodes_of), and neither the link nor a child was
/// used. Once they were read, `Unanswered` says that all turns were taken and a request has no reply, `Link` that the link could not be bound or a receive
/// failed, `Sink` that a line of a node could not be written, and `Child` that the server of that shard could not be started or awaited, or ended
/// with another status than 0. The journal that is named is opened once all files were read, and before the link is bound: `Journal` says that it is
/// refused, and then the link was not used, `Disk` that its disk failed, and `Full` that it has no room for a message. The log that is named is opened
/// behind that, and before the bind too: `Book` says that its book failed. `Memory` comes at any time, and no clause gives it a cause.
pub fn launch<'a, F: Files, S: Sink, L: Link, P: Spawner, D: Disk, B: Book>(
    alloc: Global,
    asked: Asked<'a>,
    files: &mut F,
    out: &mut S,
    link: &mut L,
    children: &mut P,
    disk: &mut D,
    book: &mut B,
) -> Result<(), Fault<'a>>
    requires needed { IsTrue (needs_nodes (command_of asked)) }
    requires within { IsWithin (command_of asked) }
    // Of any words that ask for this command: the loop ended so, or the files that they name gave nothing.
    ensures ends { (words : List (List ℕ)) → AreWordsOf words (command_of asked.entry) → IsLaunched (record {
      run = run_call F.Files S.Sink words files.old files.new out.old out.new;
      link = link_call L.Link link.old link.new;
      children = children_call P.Spawner children.old children.new;
      disk = disk_call D.Disk disk.old disk.new;
      book = book_call B.Book book.old book.new;
    }) result }
    ensures untouched { IsTrue (fails_by precedes_loop result) → (link.new ≡ link.old) × (children.new ≡ children.old) }
    ensures childless { CountsChildren result (P.faults children.old) (P.faults children.new) }
    // The disk is the matter of a server's journal alone, which is opened once the files were read.
    ensures unopened { IsTrue (fails_by precedes_journal result) → disk.new ≡ disk.old }
    ensures unkept { journal_of (command_of asked.entry) ≡ None → disk.new ≡ disk.old }
    // The book is the matter of a log alone, and opened last before the link is bound.
    ensures unbegun { IsTrue (fails_by precedes_loop result) → LeavesBook (book_call B.Book book.old book.new) }
    ensures unlogged { log_of (command_of asked.entry) ≡ None → LeavesBook (book_call B.Book book.old book.new) }
    // Children are the matter of `local` alone: whatever comes of another command, they are as they were.
    ensures unspawned { (words : List (List ℕ)) → AreWordsOf words (command_of asked.entry) → (AreLocalWords words → ⊥) → children.new ≡ children.old }
    ensures failed { ReadsBut (F.failed_names files.old) (F.failed_names files.new) result }

    // A count of faults rises exactly at the fault that blames it.
    ensures file_faults { HasCause (fails_by blames_file result) (F.faults files.old) (F.faults files.new) }
    ensures sink_faults { HasCause (fails_by blames_sink result) (S.faults out.old) (S.faults out.new) }
    ensures link_faults { HasCause (fails_by blames_link result) (L.faults link.old) (L.faults link.new) }
    ensures disk_faults { HasCause (fails_by blames_disk result) (D.faults disk.old) (D.faults disk.new) }
    ensures book_faults { HasCause (fails_by blames_book result) (B.faults book.old) (B.faults book.new) }

    ensures content { (name : List ℕ) → F.content files.new name ≡ F.content files.old name }
{
    match asked.ask {
        Ask::Serve(serving) => serve_files(alloc, serving, files, out, link, disk, book),
        Ask::Submit(submitting) => submit_files(alloc, submitting, files, out, link, book),
        Ask::Stop { workload, cluster } => {
            stop_files(alloc, workload, cluster, files, out, link)
        }
        Ask::Local {
            workload,
            cluster,
            requests,
            turns,
        } => local_files(
            alloc, workload, cluster, requests, turns, files, out, link, children,
        ),
        Ask::Check { .. }
        | Ask::Print { .. }
        | Ask::Replay { .. }
        | Ask::Gen { .. }
        | Ask::Audit { .. } => unreachable!(),
    }
}
