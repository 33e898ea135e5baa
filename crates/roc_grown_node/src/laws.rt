//! Laws of deliveries of two files. Each is the contract of a function that does nothing.
ghost use Rattle.std.specs.Prelude.{◌≡◌, ◌≢◌, ℕ, Bool, true, false, List, if◌then◌else◌};
ghost use Rattle.roc_epoch.specs.declared.file.File.{File};
ghost use Rattle.roc_epoch.specs.Files.{file_of, is_for};
ghost use Rattle.roc_msg.specs.declared.msg.Msg.{Msg};
ghost use Rattle.roc_node.specs.declared.judging.Skip.TheVariants.{Tag};
ghost use Rattle.roc_wire.specs.declared.header.Header.{Header};
ghost use Rattle.roc_wire.specs.Laws.{Spells};
ghost use Rattle.roc_grown_node.specs.declared.judging.GrownJudged.TheVariants.{Delivery, Skipped};
ghost use Rattle.roc_grown_node.specs.Judgement.{grown_judged, is_past};
ghost use Rattle.roc_grown_node.specs.Posting.{header_for};
ghost use Rattle.roc_grown_node.specs.Setting.{GrownNodeSetting, HaveSameTags};

use roc_wire::laws::spelled_is_read;

/// A delivery's file is that of its message at a node that has switched as far as the one that takes it, which takes notice of it.
pub fn deliveries_are_noticed()
    ensures file { (S : GrownNodeSetting) (switched : Bool) (bytes : List ℕ) (header : Header) (file : File) (msg : Msg)
        → grown_judged S switched bytes ≡ Delivery header file msg → file ≡ file_of switched msg }
    ensures noticed { (S : GrownNodeSetting) (switched : Bool) (bytes : List ℕ) (header : Header) (file : File) (msg : Msg)
        → grown_judged S switched bytes ≡ Delivery header file msg → is_for switched file msg ≡ true }
{}

/// Where the tags of the two files differ, a node takes of what another one sent just that of which it takes notice, in its file; the rest it skips for the tag.
/// The sender is no coordinator past the last one.
pub fn tags_tell_files()
    ensures { (S T : GrownNodeSetting) (sender receiver : Bool) (msg : Msg) (bytes : List ℕ) → HaveSameTags S T → S.next.tag ≢ S.header.tag
        → is_past T.next.coords S.header.from ≡ false → Spells bytes (header_for S sender msg) msg
        → grown_judged T receiver bytes ≡ (if is_for receiver (file_of sender msg) msg then Delivery (header_for S sender msg) (file_of sender msg) msg else Skipped Tag) }
{
    spelled_is_read();
}
