//! A network of two files, and the two worlds that have each the messages of one: what of it is of a file follows, message by message, as nodes send and as
//! messages come. Each drained and each switched is of neither.
ghost use Rattle.std.specs.Prelude.{◌≡◌, ◌≢◌, ℕ, suc, Bool, true, false, not, ◌==◌, List, ◌++◌, Some, length, map, filter, slice_get};
ghost use Rattle.roc_base.specs.declared.node.Node.{Node};
ghost use Rattle.roc_sequence.specs.Lists.{Has};
ghost use Rattle.roc_msg.specs.declared.msg.Envelope.{Envelope};
ghost use Rattle.roc_msg.specs.declared.outbox.Outgoing.{Outgoing};
ghost use Rattle.roc_law_world.specs.World.{World, sends, mark_delivered};
ghost use Rattle.roc_epoch.specs.declared.file.File.{File};
ghost use Rattle.roc_epoch.specs.declared.file.File.TheVariants.{Neither};
ghost use Rattle.roc_epoch.specs.Files.{is_between, own_file};
ghost use Rattle.roc_two_files.specs.Sealed.{Sealed, is_of, sealed_by, place_in_file, numbers_behind, IsNetworkOf};

/// A node sends what its step sends, and behind it what is of neither file: the world of its own file gains what the step sent, and that of the other file stays.
pub fn sends_are_of_their_file()
    ensures own { (sent : List Sealed) (undelivered : List ℕ) (w : World) (switched : Bool) (from : Node) (outs more : List Outgoing)
        → ((out : Outgoing) → Has out outs → is_between out.msg ≡ false) → ((out : Outgoing) → Has out more → is_between out.msg ≡ true)
        → IsNetworkOf (own_file switched) sent undelivered w
        → IsNetworkOf (own_file switched) (sent ++ map (sealed_by switched from) (outs ++ more))
        (undelivered ++ numbers_behind sent (length (map (sealed_by switched from) (outs ++ more)))) (sends w from outs) }
    ensures other { (f : File) (sent : List Sealed) (undelivered : List ℕ) (w : World) (switched : Bool) (from : Node) (outs more : List Outgoing)
        → f ≢ own_file switched → f ≢ Neither
        → ((out : Outgoing) → Has out outs → is_between out.msg ≡ false) → ((out : Outgoing) → Has out more → is_between out.msg ≡ true)
        → IsNetworkOf f sent undelivered w
        → IsNetworkOf f (sent ++ map (sealed_by switched from) (outs ++ more)) (undelivered ++ numbers_behind sent (length (map (sealed_by switched from) (outs ++ more)))) w }
{}

/// Where message k + 1 comes, it comes in the world of its file, by the number that it has there, and the worlds of the others stay.
pub fn messages_come_in_their_file()
    ensures own { (f : File) (sent : List Sealed) (undelivered : List ℕ) (w : World) → IsNetworkOf f sent undelivered w
        → (k : ℕ) (m : Sealed) → slice_get sent k ≡ Some m → is_of f m ≡ true
        → IsNetworkOf f sent (filter (λ n. not (n == suc k)) undelivered) (mark_delivered w (suc (place_in_file f sent k))) }
    ensures other { (f : File) (sent : List Sealed) (undelivered : List ℕ) (w : World) → IsNetworkOf f sent undelivered w
        → (k : ℕ) (m : Sealed) → slice_get sent k ≡ Some m → is_of f m ≡ false
        → IsNetworkOf f sent (filter (λ n. not (n == suc k)) undelivered) w }
{}

/// A message of a file stands in its world, at its place among those of the file; and each message of the world is one of these.
pub fn messages_keep_their_places()
    ensures there { (f : File) (sent : List Sealed) (undelivered : List ℕ) (w : World) → IsNetworkOf f sent undelivered w
        → (k : ℕ) (m : Sealed) → slice_get sent k ≡ Some m → is_of f m ≡ true → slice_get w.sent (place_in_file f sent k) ≡ Some m.message }
    ensures from { (f : File) (sent : List Sealed) (undelivered : List ℕ) (w : World) → IsNetworkOf f sent undelivered w
        → (i : ℕ) (m : Envelope) → slice_get w.sent i ≡ Some m
        → (k : ℕ) × (x : Sealed) × (slice_get sent k ≡ Some x) × (is_of f x ≡ true) × (x.message ≡ m) × (place_in_file f sent k ≡ i) }
{}
