//! The text of a checkpoint that is signed.

ghost use Rattle.std.specs.Prelude.{◌≡◌, IfOk, string_bytes};
ghost use Rattle.warg_update.specs.Proved.{checkpoint_text as text_of_checkpoint};

use std::alloc::Global;
use warg_exchange::Checkpoint;
use warg_values::Memory;

/// The text of a checkpoint that is signed: what it is for, its length, its roots and its time, a line each.
pub fn checkpoint_text(alloc: Global, checkpoint: &Checkpoint) -> Result<String, Memory>
    ensures { IfOk result (λ text. string_bytes text ≡ text_of_checkpoint checkpoint.now) }
{
    let log_root = checkpoint.log_root.text(alloc)?;
    let map_root = checkpoint.map_root.text(alloc)?;
    let mut text = format!(in alloc; "WARG-CHECKPOINT-SIGNATURE-V0\n{}\n", checkpoint.log_length)?;
    text.push_str(log_root.as_str())?;
    text.push_str("\n")?;
    text.push_str(map_root.as_str())?;
    let time = format!(in alloc; "\n{}\n", checkpoint.timestamp)?;
    text.push_str(&time)?;
    Ok(text)
}
