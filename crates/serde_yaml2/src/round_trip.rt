//! Types whose values come back: written and then read, they are themselves.

ghost use Rattle.std.specs.Prelude.{◌≡◌, ◌≤◌, Some, refl, true, string_bytes, All, pos, negsuc};
ghost use Rattle.std.specs.Char.{is_ascii_alphanumeric};
ghost use Rattle.std.specs.Str.{IsUtf8};
ghost use Rattle.yaml_small.specs.View.{view};
ghost use Rattle.yaml_text.specs.Written.{tree_of, ReadsBack};
ghost use Rattle.yaml_read.specs.Wrapped.{wrapped};
ghost use Rattle.serde_yaml2.specs.Returns.{IsBetween, EachReturns, OptionReturns, MapReturns};
ghost use Rattle.serde_yaml2.specs.NodeReturns.{DataReturns};
ghost use Rattle.serde_yaml2.specs.ReturnLaws as laws;
ghost use Rattle.serde_yaml2.specs.NodeReturnLaws as node_laws;
ghost use Rattle.serde_yaml2.specs.SeenLaws as seen_laws;
ghost use Rattle.serde_yaml2.specs.Nodes.{data_written};
ghost use Rattle.serde_yaml2.specs.Values.{character_of};
ghost use Rattle.yaml_text.specs.Written as spec;

use crate::write::WriteYaml;
use indexmap::IndexMap;
use warg_values::Text;
use yaml_read::{ReadYaml, YamlNodeWrapper};

/// A type that is read and written, and says which of its values come back.
pub trait RoundTrip: ReadYaml + WriteYaml {
    /// Which values come back.
    ghost Returns: { Self → Type 0 };

    /// What is written for a value that comes back is a text that reads as its tree.
    ghost reads_back: { (x : Self) → Returns x → ReadsBack (Self.written x) };

    /// What is seen of a value decides what is written for it.
    ghost written_alike: { (x y : Self) → Self.seen x ≡ Self.seen y → Self.written x ≡ Self.written y };

    /// That tree is read as the value.
    ghost comes_back: { (x : Self) → Returns x → Self.of_node (Some (tree_of (Self.written x))) ≡ Some (Self.seen x) };
}

impl RoundTrip for bool {
    ghost Returns = { EachReturns };

    ghost reads_back = { λ b _. tt };

    ghost written_alike = { λ a b e. seen_laws.alike spec.boolean a b e };

    ghost comes_back = { λ b _. laws.truth_comes_back b };
}

/// Letters and digits of ASCII come back. Any other character is written in quotes, and read where it stands in none.
impl RoundTrip for char {
    ghost Returns = { λ c. is_ascii_alphanumeric c ≡ true };

    ghost reads_back = { λ c is. laws.character_reads_back c is };

    ghost written_alike = { λ c d e. seen_laws.alike character_of c d e };

    ghost comes_back = { λ c is. laws.character_comes_back c is };
}

impl RoundTrip for u8 {
    ghost Returns = { λ n. n ≤ 255 };

    ghost reads_back = { λ n le. laws.unsigned_reads_back 255 n (laws.below_u8) le };

    ghost written_alike = { λ m n e. seen_laws.alike (λ k. spec.number (pos k)) m n e };

    ghost comes_back = { λ n le. laws.unsigned_comes_back 255 n (laws.below_u8) le };
}

impl RoundTrip for u16 {
    ghost Returns = { λ n. n ≤ 65535 };

    ghost reads_back = { λ n le. laws.unsigned_reads_back 65535 n (laws.below_u16) le };

    ghost written_alike = { λ m n e. seen_laws.alike (λ k. spec.number (pos k)) m n e };

    ghost comes_back = { λ n le. laws.unsigned_comes_back 65535 n (laws.below_u16) le };
}

impl RoundTrip for u32 {
    ghost Returns = { λ n. n ≤ 4294967295 };

    ghost reads_back = { λ n le. laws.unsigned_reads_back 4294967295 n (laws.below_u32) le };

    ghost written_alike = { λ m n e. seen_laws.alike (λ k. spec.number (pos k)) m n e };

    ghost comes_back = { λ n le. laws.unsigned_comes_back 4294967295 n (laws.below_u32) le };
}

impl RoundTrip for u64 {
    ghost Returns = { λ n. n ≤ 18446744073709551615 };

    ghost reads_back = { λ n le. laws.unsigned_reads_back 18446744073709551615 n (laws.below_u64) le };

    ghost written_alike = { λ m n e. seen_laws.alike (λ k. spec.number (pos k)) m n e };

    ghost comes_back = { λ n le. laws.unsigned_comes_back 18446744073709551615 n (laws.below_u64) le };
}

impl RoundTrip for i8 {
    ghost Returns = { IsBetween (negsuc 127) (pos 127) };

    ghost reads_back = { λ n h. laws.signed_reads_back (negsuc 127) (pos 127) n refl refl h };

    ghost written_alike = { λ m n e. seen_laws.alike spec.number m n e };

    ghost comes_back = { λ n h. laws.signed_comes_back (negsuc 127) (pos 127) n refl refl h };
}

impl RoundTrip for i16 {
    ghost Returns = { IsBetween (negsuc 32767) (pos 32767) };

    ghost reads_back = { λ n h. laws.signed_reads_back (negsuc 32767) (pos 32767) n refl refl h };

    ghost written_alike = { λ m n e. seen_laws.alike spec.number m n e };

    ghost comes_back = { λ n h. laws.signed_comes_back (negsuc 32767) (pos 32767) n refl refl h };
}

impl RoundTrip for i32 {
    ghost Returns = { IsBetween (negsuc 2147483647) (pos 2147483647) };

    ghost reads_back = { λ n h. laws.signed_reads_back (negsuc 2147483647) (pos 2147483647) n refl refl h };

    ghost written_alike = { λ m n e. seen_laws.alike spec.number m n e };

    ghost comes_back = { λ n h. laws.signed_comes_back (negsuc 2147483647) (pos 2147483647) n refl refl h };
}

impl RoundTrip for i64 {
    ghost Returns = { IsBetween (negsuc 9223372036854775807) (pos 9223372036854775807) };

    ghost reads_back = { λ n h. laws.signed_reads_back (negsuc 9223372036854775807) (pos 9223372036854775807) n refl refl h };

    ghost written_alike = { λ m n e. seen_laws.alike spec.number m n e };

    ghost comes_back = { λ n h. laws.signed_comes_back (negsuc 9223372036854775807) (pos 9223372036854775807) n refl refl h };
}

impl RoundTrip for Text {
    ghost Returns = { λ t. IsUtf8 t };

    ghost reads_back = { λ t utf8. utf8 };

    ghost written_alike = { λ s t e. seen_laws.alike spec.text s t e };

    ghost comes_back = { λ t utf8. refl };
}

impl RoundTrip for String {
    ghost Returns = { λ t. IsUtf8 (string_bytes t) };

    ghost reads_back = { λ t utf8. utf8 };

    ghost written_alike = { λ s t e. seen_laws.alike spec.text (string_bytes s) (string_bytes t) e };

    ghost comes_back = { λ t utf8. refl };
}

impl RoundTrip for () {
    ghost Returns = { EachReturns };

    ghost reads_back = { λ u _. tt };

    ghost written_alike = { λ u v e. refl };

    ghost comes_back = { λ u _. refl };
}

/// `None` comes back, and so does `Some` of a value that comes back and is not written as `null` or `~`.
impl<T: RoundTrip> RoundTrip for Option<T> {
    ghost Returns = { OptionReturns T.written T.Returns };

    ghost reads_back = { λ o h. laws.option_reads_back T.written T.Returns T.reads_back o h };

    ghost written_alike = { λ x y e. seen_laws.option_alike T.written T.seen T.written_alike x y e };

    ghost comes_back = { λ o h. laws.option_comes_back T.written T.seen T.of_node T.Returns T.comes_back o h };
}

impl<A: RoundTrip, B: RoundTrip> RoundTrip for (A, B) {
    ghost Returns = { λ p. A.Returns p.0 × B.Returns p.1 };

    ghost reads_back = { λ p h. (A.reads_back p.0 h.0, (B.reads_back p.1 h.1, tt)) };

    ghost written_alike = { λ p q e. seen_laws.pair_alike
        A.written B.written A.seen B.seen A.written_alike B.written_alike p q e };

    ghost comes_back = { λ p h. laws.pair_comes_back A.of_node B.of_node (A.written p.0) (B.written p.1) (A.seen p.0) (B.seen p.1)
        (A.comes_back p.0 h.0) (B.comes_back p.1 h.1) };
}

impl<A: RoundTrip, B: RoundTrip, C: RoundTrip> RoundTrip for (A, B, C) {
    ghost Returns = { λ p. A.Returns p.0 × B.Returns p.1 × C.Returns p.2 };

    ghost reads_back = { λ p h. (A.reads_back p.0 h.0, (B.reads_back p.1 h.1, (C.reads_back p.2 h.2, tt))) };

    ghost written_alike = { λ p q e. seen_laws.triple_alike
        A.written B.written C.written A.seen B.seen C.seen A.written_alike B.written_alike C.written_alike p q e };

    ghost comes_back = { λ p h. laws.triple_comes_back
        A.of_node B.of_node C.of_node (A.written p.0) (B.written p.1) (C.written p.2)
        (A.seen p.0) (B.seen p.1) (C.seen p.2) (A.comes_back p.0 h.0) (B.comes_back p.1 h.1) (C.comes_back p.2 h.2) };
}

impl<T: RoundTrip> RoundTrip for Vec<T> {
    ghost Returns = { λ v. All T.Returns v.items };

    ghost reads_back = { λ v h. laws.list_reads_back T.written T.Returns T.reads_back v.items h };

    ghost written_alike = { λ v w e. seen_laws.list_alike T.written T.seen T.written_alike v.items w.items e };

    ghost comes_back = { λ v h. laws.list_comes_back T.written T.seen T.of_node T.Returns T.comes_back v.items h };
}

/// A map comes back where its values do: the keys of a map are texts, and differ.
impl<V: RoundTrip> RoundTrip for IndexMap<Text, V> {
    ghost Returns = { λ m. MapReturns V.Returns m.entries };

    ghost reads_back = { λ m h. laws.map_reads_back V.written V.Returns V.reads_back m.entries h };

    ghost written_alike = { λ m n e. seen_laws.map_alike V.written V.seen V.written_alike m.entries n.entries e };

    ghost comes_back = { λ m h. laws.map_comes_back V.written V.seen V.of_node V.Returns V.comes_back m.entries h };
}

/// Integers, truth values and nothing come back, and so do texts that the core schema takes for no other kind, and lists
/// and maps of such values.
impl RoundTrip for YamlNodeWrapper {
    ghost Returns = { λ w. DataReturns (view (wrapped w)) };

    ghost reads_back = { λ w h. node_laws.data_reads_back (view (wrapped w)) h };

    ghost written_alike = { λ v w e. seen_laws.alike data_written (view (wrapped v)) (view (wrapped w)) e };

    ghost comes_back = { λ w h. node_laws.data_comes_back (view (wrapped w)) h };
}
