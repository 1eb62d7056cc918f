//! A caller of `yaml_read`.

ghost use Rattle.std.specs.Prelude.{IfOk};
ghost use Rattle.yaml_read.specs.Nodes.{plain_node};
ghost use Rattle.yaml_read.specs.Scalar.{unsigned};
ghost use Rattle.yaml_read.specs.Whole.{Holds};

use std::alloc::Global;
use yaml_read::{DeError, from_str};

/// The number of a port: the one plain scalar of a document.
pub fn port(alloc: Global, text: &str) -> Result<u16, DeError>
    ensures { IfOk result (λ number. Holds (plain_node (unsigned 65535)) text.now number) }
{
    from_str::<u16>(alloc, text)
}
