//! How deep a serializer writes.

ghost use Rattle.std.specs.Prelude.{◌≡◌, ◌+◌, ◌≤◌, IfSome, IsNone};

/// How many lists and maps may be open: as many as are read.
const MOST_OPEN: usize = 64;

/// How many lists and maps are open.
#[derive(Clone, Copy, Debug)]
pub struct Level {
    depth: usize,
    ghost within: { depth ≤ 64 },
}

impl Level {
    /// No list and no map is open.
    pub fn outermost() -> Self
        ensures { result.depth ≡ 0 }
    {
        Level { depth: 0 }
    }

    /// How many are open.
    pub fn depth(self) -> usize
        ensures { result ≡ self.depth }
    {
        self.depth
    }

    /// The level within one more.
    pub fn deeper(self) -> Option<Level>
        ensures some { IfSome result (λ level. level.depth ≡ self.depth + 1) }
        ensures none { IsNone result → 64 ≤ self.depth }
    {
        if self.depth < MOST_OPEN {
            Some(Level {
                depth: self.depth + 1,
            })
        } else {
            None
        }
    }
}
