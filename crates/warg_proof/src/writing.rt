//! Writing the bytes of proof bundles.

ghost use Rattle.std.specs.Prelude.{◌≡◌, ◌++◌, ◌<◌, ◌^◌, List, ℕ, length, OnOk};
ghost use Rattle.std.specs.List.{flat_map};
ghost use Rattle.warg_proof.specs.LogProofs.{counted, node_text, consistency_text, inclusion_text};

use crate::node::{Consistency, Inclusion, Node};
use warg_values::Memory;

/// A value that is written.
pub trait Written {
    ghost use Rattle.std.specs.Prelude.{List, ℕ};

    /// The value's bytes.
    ghost text: { Self → List ℕ };

    /// Writes the value's bytes behind others.
    fn push_to(&self, out: &mut Vec<u8>) -> Result<(), Memory>
        ensures { OnOk result (out.new.items ≡ out.old.items ++ text self.now) };
}

impl Written for Node {
    ghost use Rattle.warg_proof.specs.LogProofs.{node_text};

    ghost text = { node_text };

    fn push_to(&self, out: &mut Vec<u8>) -> Result<(), Memory> {
        out.push(self.level)?;
        out.extend_from_slice(&self.place.to_be_bytes())?;
        out.extend_from_slice(&self.hash)?;
        Ok(())
    }
}

impl Written for Consistency {
    ghost use Rattle.warg_proof.specs.LogProofs.{consistency_text};

    ghost text = { consistency_text };

    fn push_to(&self, out: &mut Vec<u8>) -> Result<(), Memory> {
        out.extend_from_slice(&self.old_length.to_be_bytes())?;
        out.extend_from_slice(&self.new_length.to_be_bytes())?;
        Ok(())
    }
}

impl Written for Inclusion {
    ghost use Rattle.warg_proof.specs.LogProofs.{inclusion_text};

    ghost text = { inclusion_text };

    fn push_to(&self, out: &mut Vec<u8>) -> Result<(), Memory> {
        out.extend_from_slice(&self.log_length.to_be_bytes())?;
        out.extend_from_slice(&self.index.to_be_bytes())?;
        Ok(())
    }
}

impl Written for [u8; 32] {
    ghost text = { λ hash. hash };

    fn push_to(&self, out: &mut Vec<u8>) -> Result<(), Memory> {
        out.extend_from_slice(self)?;
        Ok(())
    }
}

/// Writes values, one behind the other.
pub fn push_each<T: Written>(out: &mut Vec<u8>, values: &[T]) -> Result<(), Memory>
    ensures { OnOk result (out.new.items ≡ out.old.items ++ flat_map T.text values.now) }
{
    for value in values {
        value.push_to(out)?;
    }
    Ok(())
}

/// Writes a count in four bytes, and as many values.
pub fn push_counted<T: Written>(out: &mut Vec<u8>, values: &[T]) -> Result<(), Memory>
    requires { length values.now < 2 ^ 32 }
    ensures { OnOk result (out.new.items ≡ out.old.items ++ counted T.text values.now) }
{
    out.extend_from_slice(&(values.len() as u32).to_be_bytes())?;
    push_each(out, values)?;
    Ok(())
}
