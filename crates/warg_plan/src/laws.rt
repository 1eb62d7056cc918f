//! What is known of plans and of the walk. Each law is the contract of a function that does nothing; as lemmas they
//! stand in `specs/PlanLaws`, `specs/CauseLaws`, `specs/OnwardLaws`, `specs/KeyLaws` and `specs/FormLaws`.

ghost use Rattle.std.specs.Prelude.{◌≡◌, ◌↔◌, ◌⊎◌, ◌≤◌, ℕ, List, length, None, Ok, Err, true};
ghost use Rattle.compose_config.specs.Plan.{Settings};
ghost use Rattle.warg_plan.specs.Keys.{Key, same_key};
ghost use Rattle.warg_plan.specs.Walk.{Entry, Facts, Stop, node_of, walk};
ghost use Rattle.warg_plan.specs.Plan.{IsPlan};
ghost use Rattle.warg_plan.specs.Known.{Extends, IsNeed, IsBelow, IsUnknown};
ghost use Rattle.warg_plan.specs.Onward.{IsOnTheWay};
ghost use Rattle.warg_plan.specs.Cause.{IsCause};
ghost use Rattle.warg_plan.specs.Form.{IsPlanText, misfit_of};

/// What the walk finds is a plan.
pub fn the_walk_finds_a_plan()
    ensures { (s : Settings) (f : Facts) (depth : ℕ) (root : Key) (es : List Entry)
        → walk (node_of s f) depth root ≡ Ok es
        → IsPlan s f root es }
{}

/// Each stop of the walk has its cause.
pub fn each_stop_has_its_cause()
    ensures { (s : Settings) (f : Facts) (depth : ℕ) (root : Key) (stop : Stop)
        → walk (node_of s f) depth root ≡ Err stop
        → IsCause s f root depth stop }
{}

/// Over more that is known the walk finds and refuses the same, but where it asked for something that is known then.
pub fn more_facts_change_nothing()
    ensures { (s : Settings) (less more : Facts) (depth : ℕ) (root : Key)
        → Extends less more
        → IsBelow more (walk (node_of s less) depth root) (walk (node_of s more) depth root) }
{}

/// Where there is a plan, the walk over some of what is known finds one, or asks for something that is known: it
/// refuses nothing.
pub fn a_plan_is_found()
    ensures { (s : Settings) (less more : Facts) (depth : ℕ) (root : Key) (es : List Entry)
        → Extends less more
        → IsPlan s more root es
        → length es ≤ depth
        → ((found : List Entry) × (walk (node_of s less) depth root ≡ Ok found)
        × (walk (node_of s more) depth root ≡ Ok found))
        ⊎ ((stop : Stop) × (walk (node_of s less) depth root ≡ Err stop) × IsNeed more stop) }
{}

/// Keys are the same exactly where they are equal.
pub fn the_same_keys_are_equal()
    ensures { (a b : Key) → (same_key a b ≡ true) ↔ (a ≡ b) }
{}

/// A text sets nothing that has no place in a plan exactly where a plan is made of it.
pub fn a_text_has_no_misfit()
    ensures { (s : Settings) → (misfit_of s ≡ None) ↔ IsPlanText s }
{}

/// What a walk asks for is not known.
pub fn what_is_asked_for_is_not_known()
    ensures { (s : Settings) (f : Facts) (depth : ℕ) (root : Key) (stop : Stop)
        → walk (node_of s f) depth root ≡ Err stop
        → IsUnknown f stop }
{}

/// What is on the way of a walk is on its way over more that is known.
pub fn more_facts_leave_the_way()
    ensures { (s : Settings) (less more : Facts) (depth : ℕ) (root : Key) (es : List Entry)
        → Extends less more
        → IsOnTheWay s less depth root es
        → IsOnTheWay s more depth root es }
{}
