//! Numbers that are drawn.

ghost use Rattle.std.specs.Prelude.{◌≡◌, ◌<◌};
ghost use Rattle.warg_demo.specs.Draws.{drawn, next};

/// What the state is multiplied by.
const MULTIPLIER: u64 = 6_364_136_223_846_793_005;

/// What is added to that.
const INCREMENT: u64 = 1_442_695_040_888_963_407;

/// How many states give one number: the low 33 bits are not taken.
const STATES_ALIKE: u64 = 8_589_934_592;

/// A generator of numbers, which the same seed makes draw the same numbers.
#[derive(Clone, Copy, Debug)]
pub struct Draws {
    /// Its state.
    pub state: u64,
}

impl Draws {
    /// The next number below a bound.
    pub fn below(&mut self, bound: u64) -> u64
        requires { 0 < bound }
        ensures state { self.new.state ≡ next self.old.state }
        ensures drawn { result ≡ drawn bound (next self.old.state) }
    {
        self.state = self.state.wrapping_mul(MULTIPLIER).wrapping_add(INCREMENT);
        self.state / STATES_ALIKE % bound
    }
}
