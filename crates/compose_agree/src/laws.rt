//! Laws over definitions alone.

ghost use Rattle.std.specs.Prelude.{◌≡◌, Bool, List, ℕ};
ghost use Rattle.compose_agree.specs.LetterCase.{IsFirstClash};
ghost use Rattle.compose_agree.specs.Order.{HasPlaces, IsOrder, IsStuck, all_of, is_ready};
ghost use Rattle.compose_agree.specs.declared.letter_case.CaseClash.{CaseClash};

/// Things have at most one order, and none where some of them wait for each other. One alone is then the first of these.
pub fn one_order()
    ensures one { (ready : List ℕ → ℕ → Bool) (all xs ys : List ℕ) → IsOrder ready all xs → IsOrder ready all ys
        → xs ≡ ys }
    ensures none { (ready : List ℕ → ℕ → Bool) (all xs : List ℕ) (n : ℕ) → IsOrder ready all xs → IsStuck ready all n
        → ⊥ }
    ensures stuck { (ready : List ℕ → ℕ → Bool) (all : List ℕ) (m n : ℕ) → IsStuck ready all m → IsStuck ready all n
        → m ≡ n }
{}

/// Of names at most one is the first that differs from an earlier one in letter case alone.
pub fn one_first_clash()
    ensures { (names : List (List ℕ)) (a b : CaseClash) → IsFirstClash names a → IsFirstClash names b → a ≡ b }
{}

/// Things have an order exactly where each has a place behind those of what it needs, so that none need each other in a
/// circle.
pub fn only_circles_have_no_order()
    ensures places { (needs : List (List ℕ)) (order : List ℕ) → IsOrder (is_ready needs) (all_of needs) order
        → (place : ℕ → ℕ) × HasPlaces needs place }
    ensures circle { (needs : List (List ℕ)) (place : ℕ → ℕ) (n : ℕ) → IsStuck (is_ready needs) (all_of needs) n
        → HasPlaces needs place → ⊥ }
{}
