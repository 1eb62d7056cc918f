//! Types of std that are read.

ghost use Rattle.std.specs.Prelude.{ℕ, List, Bool, ℤ, pos, negsuc, Option, option_map, string_bytes, Result, Ok};
ghost use Rattle.yaml_read.specs.Scalar as scalar;
ghost use Rattle.yaml_read.specs.Collections as spec;
ghost use Rattle.yaml_read.specs.Nodes as nodes;
ghost use Rattle.yaml_read.specs.Laws as laws;
ghost use Rattle.yaml_read.specs.PartLaws as parts;

use crate::deserializer::YamlDeserializer;
use crate::error::DeError;
use crate::read::ReadYaml;
use std::alloc::Global;
use warg_values::Text;

impl ReadYaml for bool {
    ghost Seen = { Bool };

    ghost seen = { λ b. b };

    ghost of_node = { nodes.plain_node scalar.truth };

    ghost read_at = { scalar.bool_at };

    fn read_yaml(alloc: Global, de: &mut YamlDeserializer<'_>) -> Result<Self, DeError> {
        de.read_bool(alloc)
    }

    ghost reads = { laws.plain_reads scalar.truth };
}

impl ReadYaml for char {
    ghost Seen = { ℕ };

    ghost seen = { λ c. c };

    ghost of_node = { nodes.plain_node scalar.character };

    ghost read_at = { scalar.char_at };

    fn read_yaml(alloc: Global, de: &mut YamlDeserializer<'_>) -> Result<Self, DeError> {
        de.read_char(alloc)
    }

    ghost reads = { laws.plain_reads scalar.character };
}

impl ReadYaml for u8 {
    ghost Seen = { ℕ };

    ghost seen = { λ n. n };

    ghost of_node = { nodes.plain_node (scalar.unsigned 255) };

    ghost read_at = { scalar.unsigned_at 255 };

    fn read_yaml(alloc: Global, de: &mut YamlDeserializer<'_>) -> Result<Self, DeError> {
        de.read_u8(alloc)
    }

    ghost reads = { laws.plain_reads (scalar.unsigned 255) };
}

impl ReadYaml for u16 {
    ghost Seen = { ℕ };

    ghost seen = { λ n. n };

    ghost of_node = { nodes.plain_node (scalar.unsigned 65535) };

    ghost read_at = { scalar.unsigned_at 65535 };

    fn read_yaml(alloc: Global, de: &mut YamlDeserializer<'_>) -> Result<Self, DeError> {
        de.read_u16(alloc)
    }

    ghost reads = { laws.plain_reads (scalar.unsigned 65535) };
}

impl ReadYaml for u32 {
    ghost Seen = { ℕ };

    ghost seen = { λ n. n };

    ghost of_node = { nodes.plain_node (scalar.unsigned 4294967295) };

    ghost read_at = { scalar.unsigned_at 4294967295 };

    fn read_yaml(alloc: Global, de: &mut YamlDeserializer<'_>) -> Result<Self, DeError> {
        de.read_u32(alloc)
    }

    ghost reads = { laws.plain_reads (scalar.unsigned 4294967295) };
}

impl ReadYaml for u64 {
    ghost Seen = { ℕ };

    ghost seen = { λ n. n };

    ghost of_node = { nodes.plain_node (scalar.unsigned 18446744073709551615) };

    ghost read_at = { scalar.unsigned_at 18446744073709551615 };

    fn read_yaml(alloc: Global, de: &mut YamlDeserializer<'_>) -> Result<Self, DeError> {
        de.read_u64(alloc)
    }

    ghost reads = { laws.plain_reads (scalar.unsigned 18446744073709551615) };
}

impl ReadYaml for i8 {
    ghost Seen = { ℤ };

    ghost seen = { λ n. n };

    ghost of_node = { nodes.plain_node (scalar.signed (negsuc 127) (pos 127)) };

    ghost read_at = { scalar.signed_at (negsuc 127) (pos 127) };

    fn read_yaml(alloc: Global, de: &mut YamlDeserializer<'_>) -> Result<Self, DeError> {
        de.read_i8(alloc)
    }

    ghost reads = { laws.plain_reads (scalar.signed (negsuc 127) (pos 127)) };
}

impl ReadYaml for i16 {
    ghost Seen = { ℤ };

    ghost seen = { λ n. n };

    ghost of_node = { nodes.plain_node (scalar.signed (negsuc 32767) (pos 32767)) };

    ghost read_at = { scalar.signed_at (negsuc 32767) (pos 32767) };

    fn read_yaml(alloc: Global, de: &mut YamlDeserializer<'_>) -> Result<Self, DeError> {
        de.read_i16(alloc)
    }

    ghost reads = { laws.plain_reads (scalar.signed (negsuc 32767) (pos 32767)) };
}

impl ReadYaml for i32 {
    ghost Seen = { ℤ };

    ghost seen = { λ n. n };

    ghost of_node = { nodes.plain_node (scalar.signed (negsuc 2147483647) (pos 2147483647)) };

    ghost read_at = { scalar.signed_at (negsuc 2147483647) (pos 2147483647) };

    fn read_yaml(alloc: Global, de: &mut YamlDeserializer<'_>) -> Result<Self, DeError> {
        de.read_i32(alloc)
    }

    ghost reads = { laws.plain_reads (scalar.signed (negsuc 2147483647) (pos 2147483647)) };
}

impl ReadYaml for i64 {
    ghost Seen = { ℤ };

    ghost seen = { λ n. n };

    ghost of_node = { nodes.plain_node (scalar.signed (negsuc 9223372036854775807) (pos 9223372036854775807)) };

    ghost read_at = { scalar.signed_at (negsuc 9223372036854775807) (pos 9223372036854775807) };

    fn read_yaml(alloc: Global, de: &mut YamlDeserializer<'_>) -> Result<Self, DeError> {
        de.read_i64(alloc)
    }

    ghost reads = { laws.plain_reads (scalar.signed (negsuc 9223372036854775807) (pos 9223372036854775807)) };
}

impl ReadYaml for Text {
    ghost Seen = { List ℕ };

    ghost seen = { λ t. t };

    ghost of_node = { nodes.any_node Ok };

    ghost read_at = { scalar.any_at };

    fn read_yaml(alloc: Global, de: &mut YamlDeserializer<'_>) -> Result<Self, DeError> {
        de.read_text(alloc)
    }

    ghost reads = { laws.any_reads };
}

impl ReadYaml for String {
    ghost Seen = { List ℕ };

    ghost seen = { λ t. string_bytes t };

    ghost of_node = { nodes.any_node Ok };

    ghost read_at = { scalar.any_at };

    fn read_yaml(alloc: Global, de: &mut YamlDeserializer<'_>) -> Result<Self, DeError> {
        Ok(de.read_text(alloc)?.into_string())
    }

    ghost reads = { laws.any_reads };
}

impl ReadYaml for () {
    ghost Seen = { Unit {0} };

    ghost seen = { λ u. u };

    ghost of_node = { nodes.unit_node };

    ghost read_at = { scalar.unit_at };

    fn read_yaml(alloc: Global, de: &mut YamlDeserializer<'_>) -> Result<Self, DeError> {
        de.read_unit(alloc)
    }

    ghost reads = { laws.unit_reads };
}

impl<T: ReadYaml> ReadYaml for Option<T> {
    ghost Seen = { Option T.Seen };

    ghost seen = { λ o. option_map T.seen o };

    ghost of_node = { nodes.option_node T.of_node };

    ghost read_at = { spec.option_at T.read_at };

    fn read_yaml(alloc: Global, de: &mut YamlDeserializer<'_>) -> Result<Self, DeError> {
        de.read_option(alloc)
    }

    ghost reads = { parts.option_reads T.of_node T.read_at T.reads };
}

impl<A: ReadYaml, B: ReadYaml> ReadYaml for (A, B) {
    ghost Seen = { A.Seen × B.Seen };

    ghost seen = { λ p. (A.seen p.0, B.seen p.1) };

    ghost of_node = { nodes.pair_node A.of_node B.of_node };

    ghost read_at = { spec.pair_at A.read_at B.read_at };

    fn read_yaml(alloc: Global, de: &mut YamlDeserializer<'_>) -> Result<Self, DeError> {
        de.read_pair(alloc)
    }

    ghost reads = { parts.pair_reads A.of_node B.of_node A.read_at B.read_at A.reads B.reads };
}

impl<A: ReadYaml, B: ReadYaml, C: ReadYaml> ReadYaml for (A, B, C) {
    ghost Seen = { A.Seen × B.Seen × C.Seen };

    ghost seen = { λ p. (A.seen p.0, B.seen p.1, C.seen p.2) };

    ghost of_node = { nodes.triple_node A.of_node B.of_node C.of_node };

    ghost read_at = { spec.triple_at A.read_at B.read_at C.read_at };

    fn read_yaml(alloc: Global, de: &mut YamlDeserializer<'_>) -> Result<Self, DeError> {
        de.read_triple(alloc)
    }

    ghost reads = { parts.triple_reads A.of_node B.of_node C.of_node A.read_at B.read_at C.read_at A.reads B.reads C.reads };
}
