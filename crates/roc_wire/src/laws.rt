//! What holds of all datagrams.
ghost use Rattle.std.specs.Prelude.{◌≡◌, ◌⊎◌, ℕ, List, Ok};
ghost use Rattle.roc_msg.specs.declared.msg.Msg.{Msg};
ghost use Rattle.roc_wire.specs.declared.header.Header.{Header};
ghost use Rattle.roc_wire.specs.Laws.{Spells, IsRight, IsWrong};
ghost use Rattle.roc_wire.specs.Reading.{IsBytes, datagram, pair};

/// Bytes spell at most one pair of a header and a message.
pub fn spelled_apart()
    ensures { (bytes : List ℕ) (g h : Header) (m n : Msg) → Spells bytes g m → Spells bytes h n → pair g m ≡ pair h n }
{}

/// What spells a pair is read as it.
pub fn spelled_is_read()
    ensures { (bytes : List ℕ) (header : Header) (msg : Msg) → Spells bytes header msg → datagram bytes ≡ Ok (pair header msg) }
{}

/// Bytes spell a pair, or have one first fault and spell none.
pub fn right_or_wrong()
    ensures { (bytes : List ℕ) → IsBytes bytes → IsRight bytes ⊎ IsWrong bytes }
{}
