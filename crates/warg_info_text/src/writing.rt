//! Checkpoints and logs written as texts.

ghost use Rattle.std.specs.Prelude.{◌≡◌, ◌<◌, ◌≤◌, ℕ, Some, None, IfOk, OnOk, false, length, take};
ghost use Rattle.json.specs.Layout.{pretty};
ghost use Rattle.json.specs.Lex.{tokens};
ghost use Rattle.serde_json.specs.Data.{depth};
ghost use Rattle.serde_json.specs.Read.{max_depth};
ghost use Rattle.serde_json.specs.View.{view};
ghost use Rattle.serde_json.specs.Written.{IsInOrder};
ghost use Rattle.warg_exchange.specs.Replies.{json_of};
ghost use Rattle.warg_info.specs.Info.{IsSoundOperator, IsSoundPackage};
ghost use Rattle.warg_store.specs.Held.{operator_info, package_info};
ghost use Rattle.warg_info_text.specs.StoredTexts.{checkpoint_of, checkpoint_text, operator_of, operator_text, package_of, package_text};

use crate::values::{checkpoint_value, info_value};
use serde_json::Value;
use std::alloc::Global;
use warg_exchange::SignedCheckpoint;
use warg_info::{OperatorInfo, PackageInfo};
use warg_record::laws::key_texts_are_tested;
use warg_values::Memory;
use warg_whole_json::laws::a_front_is_read_as_no_object;

/// A value in lines.
fn lines(alloc: Global, value: &Value) -> Result<Vec<u8>, Memory>
    ensures layout { IfOk result (λ text. text.items ≡ pretty (tokens text.items)) }
    ensures order { IfOk result (λ text. IsInOrder text.items (view value.now)) }
    ensures reads { IfOk result (λ text. depth (view value.now) ≤ max_depth
        → json_of text.items ≡ Some (view value.now)) }
{
    Ok(value.to_vec_pretty(alloc)?)
}

/// The text of a signed checkpoint. It reads back, and no proper front of it is read.
pub fn write_checkpoint(alloc: Global, checkpoint: &SignedCheckpoint) -> Result<Vec<u8>, Memory>
    ensures text { IfOk result (λ text. text.items ≡ checkpoint_text checkpoint.now) }
    ensures whole { OnOk result (checkpoint_of (checkpoint_text checkpoint.now) ≡ Some checkpoint.now) }
    ensures front { OnOk result ((n : ℕ) → n < length (checkpoint_text checkpoint.now)
        → checkpoint_of (take n (checkpoint_text checkpoint.now)) ≡ None) }
{
    a_front_is_read_as_no_object();
    let value = checkpoint_value(alloc, checkpoint)?;
    let text = lines(alloc, &value)?;
    Ok(text)
}

/// The text of what is kept of an operator's log. It reads back, and no proper front of it is read.
pub fn write_operator(alloc: Global, info: &OperatorInfo) -> Result<Vec<u8>, Memory>
    requires { IsSoundOperator info.now }
    ensures text { IfOk result (λ text. text.items ≡ operator_text (operator_info info.now)) }
    ensures whole { OnOk result (operator_of (operator_text (operator_info info.now))
        ≡ Some (operator_info info.now)) }
    ensures front { OnOk result ((n : ℕ) → n < length (operator_text (operator_info info.now))
        → operator_of (take n (operator_text (operator_info info.now))) ≡ None) }
{
    a_front_is_read_as_no_object();
    key_texts_are_tested();
    let value = info_value(
        alloc,
        None,
        info.registry.as_ref(),
        info.checkpoint.as_ref(),
        &info.log,
    )?;
    let text = lines(alloc, &value)?;
    Ok(text)
}

/// The text of what is kept of a package's log. It reads back, and no proper front of it is read.
pub fn write_package(alloc: Global, info: &PackageInfo) -> Result<Vec<u8>, Memory>
    requires { IsSoundPackage info.now }
    ensures text { IfOk result (λ text. text.items ≡ package_text info.now.name (package_info info.now)) }
    ensures whole { OnOk result (package_of (package_text info.now.name (package_info info.now))
        ≡ Some (info.now.name, package_info info.now)) }
    ensures front { OnOk result ((n : ℕ) → n < length (package_text info.now.name (package_info info.now))
        → package_of (take n (package_text info.now.name (package_info info.now))) ≡ None) }
{
    a_front_is_read_as_no_object();
    key_texts_are_tested();
    let value = info_value(
        alloc,
        Some(&info.name),
        info.registry.as_ref(),
        info.checkpoint.as_ref(),
        &info.log,
    )?;
    let text = lines(alloc, &value)?;
    Ok(text)
}
