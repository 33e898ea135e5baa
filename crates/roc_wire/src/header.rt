//! What stands before a message.
ghost use Rattle.std.specs.Prelude.{◌≡◌, take};
ghost use Rattle.sha2.specs.Sha256.{sha256};

use roc_base::Node;
use sha2::{Digest, Sha256};

/// The tag of the workload that the nodes run, and who sends the message.
#[derive(Clone, Copy)]
pub struct Header {
    pub tag: [u8; 8],
    pub from: Node,
}

/// The tag of a workload: the first 8 bytes of the SHA-256 of its text. Takes no memory.
pub fn tag(text: &[u8]) -> [u8; 8]
    ensures { result ≡ take 8 (sha256 text.now) }
{
    let digest = Sha256::digest(text);
    let mut tag = [0; 8];
    tag.copy_from_slice(&digest[..8]);
    tag
}
