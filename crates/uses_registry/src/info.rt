//! Callers of `warg_info`.

ghost use Rattle.std.specs.Prelude.{IfOk};
ghost use Rattle.warg_record.specs.Record.{Operator};
ghost use Rattle.warg_info.specs.Kept.{Grows};
ghost use Rattle.warg_info.specs.Info.{operator_log, IsSoundOperator};

use std::alloc::Global;
use warg_exchange::PublishedRecord;
use warg_info::{OperatorInfo, TakeError};
use warg_log::Verifier;

/// What is kept of a registry's operator with further records: the info itself stays.
pub fn with_records<V: Verifier>(
    alloc: Global,
    verifier: &V,
    info: &OperatorInfo,
    published: &[PublishedRecord],
) -> Result<OperatorInfo, TakeError>
    ensures grows { IfOk result (λ next. IsSoundOperator info.now
        → Grows Operator (operator_log info.now) published.now (operator_log next)) }
    ensures sound { IfOk result (λ next. IsSoundOperator info.now → IsSoundOperator next) }
{
    let mut next = info.try_clone(alloc)?;
    next.log.take(alloc, verifier, published)?;
    Ok(next)
}
