//! How many releases a package has.

ghost use Rattle.std.specs.Prelude.{◌≡◌};
ghost use Rattle.warg_demo.specs.Releases.{releases_drawn};

use crate::draws::Draws;

/// How many releases a package has.
#[derive(Clone, Copy, Debug)]
pub struct Releases {
    /// How many there are.
    pub count: u64,
    /// Whether the last of them is yanked.
    pub yanks_last: bool,
}

/// Draws how many releases a package has.
pub fn draw_releases(draws: &mut Draws) -> Releases
    ensures { (record { state = draws.new.state; count = result.count; yanks_last = result.yanks_last })
        ≡ releases_drawn draws.old.state }
{
    let count = 1 + draws.below(3);
    Releases {
        count,
        yanks_last: count != 1 && draws.below(4) == 0,
    }
}
