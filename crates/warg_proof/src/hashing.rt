//! The hashes of a Merkle tree (RFC 6962, section 2.1).

ghost use Rattle.std.specs.Prelude.{◌≡◌, ◌<◌};
ghost use Rattle.warg_proof.specs.Merkle.{leaf_hash as leaf_hash_of, branch_hash as branch_hash_of};
ghost use Rattle.warg_proof.specs.MapTree.{has_bit as has_bit_at};

use sha2::{Digest, Sha256};

/// The hash of a leaf: SHA-256 of a byte 0 and the content.
pub fn leaf_hash(content: &[u8]) -> [u8; 32]
    ensures { result ≡ leaf_hash_of content.now }
{
    let mut hasher = Sha256::new();
    hasher.update([0u8]);
    hasher.update(content);
    hasher.finalize()
}

/// The hash of a branch: SHA-256 of a byte 1 and the two hashes below it.
pub fn branch_hash(left: &[u8; 32], right: &[u8; 32]) -> [u8; 32]
    ensures { result ≡ branch_hash_of left.now right.now }
{
    let mut hasher = Sha256::new();
    hasher.update([1u8]);
    hasher.update(left);
    hasher.update(right);
    hasher.finalize()
}

/// Whether the bit at a depth is 1, from the highest bit of the first byte on.
pub fn has_bit(bytes: &[u8; 32], depth: usize) -> bool
    requires { depth < 256 }
    ensures { result ≡ has_bit_at bytes.now depth }
{
    (bytes[depth / 8] >> (7 - depth % 8)) % 2 == 1
}
