//! Moments as Python's `datetime` writes them.

use std::alloc::Global;
use std::test::Fail;
use test_check::is_text;
use warg_values::Moment;

/// Seconds and nanoseconds behind the start of 1970, and how the moment is written.
const MOMENTS: &[(u64, u32, &str)] = &[
    (0, 0, "1970-01-01T00:00:00Z"),
    (1, 5, "1970-01-01T00:00:01.000000005Z"),
    (951_868_799, 999_999_999, "2000-02-29T23:59:59.999999999Z"),
    (951_868_800, 0, "2000-03-01T00:00:00Z"),
    (1_709_210_096, 0, "2024-02-29T12:34:56Z"),
    (4_107_542_400, 0, "2100-03-01T00:00:00Z"),
    (253_402_300_799, 0, "9999-12-31T23:59:59Z"),
    (253_402_300_800, 0, "10000-01-01T00:00:00Z"),
];

/// Fails where a moment is written otherwise.
fn is_written(alloc: Global, seconds: u64, nanos: u32, want: &str) -> Result<(), Fail> {
    let moment = Moment { seconds, nanos };
    is_text(&format!(in alloc; "{moment}")?, want)
}

/// Fails at the first moment that is written otherwise.
fn are_written(alloc: Global, rows: &[(u64, u32, &str)]) -> Result<(), Fail> {
    for (seconds, nanos, want) in rows {
        is_written(alloc, *seconds, *nanos, want)?;
    }
    Ok(())
}

#[test]
fn moments_are_written_as_another_program_writes_them(rt: HostRuntime) -> Result<(), Fail> {
    are_written(rt.alloc(), MOMENTS)
}
