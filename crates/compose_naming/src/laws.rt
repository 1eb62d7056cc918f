//! Laws over definitions alone.

ghost use Rattle.std.specs.Prelude.{◌≡◌, ◌<◌, ◌+◌, ℕ, length, take};
ghost use Rattle.compose_order.specs.Known.{Imports};
ghost use Rattle.compose_naming.specs.Bits.{HaveBits, IsFirstWithoutBit};
ghost use Rattle.compose_naming.specs.NamingBits.{HaveNamingBits};

/// Of left imports either each function has the naming bit, or there is a first import that has one without it.
pub fn functions_have_bits_or_not()
    ensures { (ls : Imports) (n : ℕ) → HaveBits ls → IsFirstWithoutBit ls n → ⊥ }
{}

/// That is one import.
pub fn one_import_lacks_a_bit_first()
    ensures { (ls : Imports) (m n : ℕ) → IsFirstWithoutBit ls m → IsFirstWithoutBit ls n → m ≡ n }
{}

/// The naming bits of left imports are had where they may be had: each function passes, one import behind the other,
/// exactly where the types that places name may have bits of which each is that of the type's parts, all of which were
/// named before, such that each function has the naming bit.
pub fn naming_bits_are_decided()
    ensures had { (ls : Imports) → HaveBits ls → HaveNamingBits ls }
    ensures found { (ls : Imports) → HaveNamingBits ls → HaveBits ls }
{}

/// An import is the first without the bit exactly where those in front of it may have their naming bits, and with it
/// they may not.
pub fn the_first_without_bit_has_none()
    ensures before { (ls : Imports) (n : ℕ) → IsFirstWithoutBit ls n → HaveNamingBits (take n ls) }
    ensures not_with_it { (ls : Imports) (n : ℕ) → IsFirstWithoutBit ls n → HaveNamingBits (take (n + 1) ls) → ⊥ }
    ensures no_other { (ls : Imports) (n : ℕ) → n < length ls → HaveNamingBits (take n ls)
        → (HaveNamingBits (take (n + 1) ls) → ⊥)
        → IsFirstWithoutBit ls n }
{}
