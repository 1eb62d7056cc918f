//! What a log bundle lists.

/// A hash of the log's tree: the root of the `2 ^ level` entries from entry `place * 2 ^ level` on.
#[derive(Clone, Copy, Debug, PartialEq, Eq)]
pub struct Node {
    /// The level: 0 for a leaf.
    pub level: u8,
    /// The place on the level, counted from 0.
    pub place: u64,
    /// The root of the entries.
    pub hash: [u8; 32],
}

impl Node {
    ghost use Rattle.std.specs.Prelude.{◌≡◌};
    ghost use Rattle.warg_proof.specs.LogProofs.{comes_before as node_comes_before};

    /// Whether this node comes before another, by its level and on one level by its place.
    pub fn comes_before(&self, other: &Node) -> bool
        ensures { result ≡ node_comes_before self.now other.now }
    {
        self.level < other.level || (self.level == other.level && self.place < other.place)
    }
}

/// What a consistency proof is about: two lengths of a log, in entries.
#[derive(Clone, Copy, Debug, PartialEq, Eq)]
pub struct Consistency {
    /// The shorter length, or the same.
    pub old_length: u64,
    /// The longer length.
    pub new_length: u64,
}

/// What an inclusion proof is about: a length of a log, in entries, and the index of an entry.
#[derive(Clone, Copy, Debug, PartialEq, Eq)]
pub struct Inclusion {
    /// The length of the log.
    pub log_length: u64,
    /// The index of the entry, counted from 0.
    pub index: u64,
}
