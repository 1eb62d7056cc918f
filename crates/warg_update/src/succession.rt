//! How a checkpoint stands to the stored one.

ghost use Rattle.warg_update.specs.Succession.{StandsTo};
ghost use Rattle.std.specs.Prelude.{option_copied};

use warg_exchange::{Checkpoint, SignedCheckpoint};

/// How a registry's checkpoint stands to the stored one.
#[derive(Clone, Copy, Debug, PartialEq, Eq)]
pub enum Succession {
    /// None is stored, or one of the same length and roots.
    Settled,
    /// The stored one is shorter.
    Longer {
        /// The stored one.
        from: Checkpoint,
    },
    /// The stored one is longer.
    Rewound {
        /// The stored length, in records.
        from: u64,
        /// The new length, in records.
        to: u64,
    },
    /// The stored one has the same length, and another root.
    Changed {
        /// The length, in records.
        log_length: u64,
    },
}

/// How a checkpoint stands to the stored one, where one is stored.
pub fn compare(stored: Option<&SignedCheckpoint>, new: &Checkpoint) -> Succession
    ensures { StandsTo (option_copied stored.entry) new.now result }
{
    let Some(stored) = stored else {
        return Succession::Settled;
    };
    let old = stored.contents;
    if old.log_length < new.log_length {
        return Succession::Longer { from: old };
    }
    if new.log_length < old.log_length {
        return Succession::Rewound {
            from: old.log_length,
            to: new.log_length,
        };
    }
    if old.log_root == new.log_root && old.map_root == new.map_root {
        Succession::Settled
    } else {
        Succession::Changed {
            log_length: new.log_length,
        }
    }
}
