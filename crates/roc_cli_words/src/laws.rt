//! Laws of the words, over all names of files. Each is the contract of a function that does nothing.
ghost use Rattle.std.specs.Prelude.{◌≡◌, ◌≤◌, ◌<◌, ℕ, Bool, List, codes, length, [], ◌∷◌, Some, None, Ok};
ghost use Rattle.std.specs.List.{AllByRecursion};
ghost use Rattle.clap.specs.Words.{Text};
ghost use Rattle.roc_cli_words.specs.declared.value.Part.{Part};
ghost use Rattle.roc_cli_words.specs.Answer.{AreNoCommand, AreWordsOf, IsPlainWord};
ghost use Rattle.roc_cli_words.specs.Commands.{Command, most_logs};
ghost use Rattle.roc_cli_words.specs.Values.{turns_in, coords_in, seed_in, shards_in, txns_in, part_in};
ghost use Rattle.roc_cli_words.specs.Worded.{server_words, coordinator_words, next_words, later_words, AreForServer, AreForCoordinator};

/// `check W`, `print W`, `replay W S`, also with `--next NEXT --coords M`, and, of 1 to 80 logs, `audit W LOGS..` are taken and ask for just that, of all names that are
/// not empty and do not begin with a dash. More logs are refused.
pub fn files_are_named()
    ensures check { (workload : Text) → IsPlainWord workload → AreWordsOf (codes "check" ∷ workload ∷ []) (Command.check workload) }
    ensures print { (workload : Text) → IsPlainWord workload → AreWordsOf (codes "print" ∷ workload ∷ []) (Command.print workload) }
    ensures replay { (workload schedule : Text) → IsPlainWord workload → IsPlainWord schedule
        → AreWordsOf (codes "replay" ∷ workload ∷ schedule ∷ []) (Command.replay workload schedule None) }
    ensures growth { (workload schedule next text : Text) (coords : ℕ) → IsPlainWord workload → IsPlainWord schedule → IsPlainWord next → coords_in (Some text) ≡ Ok (Some coords)
        → AreWordsOf (codes "replay" ∷ workload ∷ schedule ∷ next_words next text) (Command.replay workload schedule (Some (next, coords))) }
    ensures audit { (workload : Text) (logs : List Text) → IsPlainWord workload → AllByRecursion IsPlainWord logs → 1 ≤ length logs → length logs ≤ most_logs
        → AreWordsOf (codes "audit" ∷ workload ∷ logs) (Command.audit workload logs) }
    ensures past { (workload : Text) (logs : List Text) → IsPlainWord workload → AllByRecursion IsPlainWord logs → most_logs < length logs
        → AreNoCommand (codes "audit" ∷ workload ∷ logs) }
{}

/// So are `stop W CLUSTER`, `local W CLUSTER REQUESTS --turns T` and `gen SEED SHARDS TXNS PART`, of all such names and all values of their ranges.
pub fn files_of_clusters_are_named()
    ensures stop { (workload cluster : Text) → IsPlainWord workload → IsPlainWord cluster → AreWordsOf (codes "stop" ∷ workload ∷ cluster ∷ []) (Command.stop workload cluster) }
    ensures local { (workload cluster requests text : Text) (turns : ℕ) → IsPlainWord workload → IsPlainWord cluster → IsPlainWord requests → turns_in text ≡ Ok turns
        → AreWordsOf (codes "local" ∷ workload ∷ cluster ∷ requests ∷ codes "--turns" ∷ text ∷ []) (Command.local workload cluster requests turns) }
    ensures load { (first second third fourth : Text) (seed shards txns : ℕ) (part : Part) → seed_in first ≡ Ok seed → shards_in second ≡ Ok shards → txns_in third ≡ Ok txns
        → part_in fourth ≡ Ok part → AreWordsOf (codes "gen" ∷ first ∷ second ∷ third ∷ fourth ∷ []) (Command.gen seed shards txns part) }
{}

/// So is `serve W CLUSTER --shard N --turns T`, also with `--counts`; alone, with a journal, with a log, and with a workload to grow to.
pub fn files_of_servers_are_named()
    ensures alone { (workload cluster n t : Text) (shard turns : ℕ) (counts : Bool) → AreForServer workload cluster n t shard turns
        → AreWordsOf (server_words workload cluster n t counts []) (Command.serve workload cluster shard turns counts None None None) }
    ensures journal { (workload cluster n t : Text) (shard turns : ℕ) (counts : Bool) (journal : Text) → AreForServer workload cluster n t shard turns → IsPlainWord journal
        → AreWordsOf (server_words workload cluster n t counts (codes "--journal" ∷ journal ∷ [])) (Command.serve workload cluster shard turns counts (Some journal) None None) }
    ensures log { (workload cluster n t : Text) (shard turns : ℕ) (counts : Bool) (log : Text) → AreForServer workload cluster n t shard turns → IsPlainWord log
        → AreWordsOf (server_words workload cluster n t counts (codes "--log" ∷ log ∷ [])) (Command.serve workload cluster shard turns counts None (Some log) None) }
    ensures growth { (workload cluster n t : Text) (shard turns : ℕ) (counts : Bool) (next text : Text) (coords : ℕ) → AreForServer workload cluster n t shard turns
        → IsPlainWord next → coords_in (Some text) ≡ Ok (Some coords)
        → AreWordsOf (server_words workload cluster n t counts (next_words next text)) (Command.serve workload cluster shard turns counts None None (Some (next, coords))) }
{}

/// So is `submit W CLUSTER REQUESTS --coord C --turns T`, alone, with a log, and with a workload to grow to and requests to submit then.
pub fn files_of_coordinators_are_named()
    ensures alone { (workload cluster requests n t : Text) (coord turns : ℕ) → AreForCoordinator workload cluster requests n t coord turns
        → AreWordsOf (coordinator_words workload cluster requests n t []) (Command.submit workload cluster requests coord turns None None) }
    ensures log { (workload cluster requests n t : Text) (coord turns : ℕ) (log : Text) → AreForCoordinator workload cluster requests n t coord turns → IsPlainWord log
        → AreWordsOf (coordinator_words workload cluster requests n t (codes "--log" ∷ log ∷ [])) (Command.submit workload cluster requests coord turns (Some log) None) }
    ensures growth { (workload cluster requests n t : Text) (coord turns : ℕ) (next later : Text) → AreForCoordinator workload cluster requests n t coord turns
        → IsPlainWord next → IsPlainWord later
        → AreWordsOf (coordinator_words workload cluster requests n t (later_words next later)) (Command.submit workload cluster requests coord turns None (Some (next, later))) }
{}
