//! Reading the fields of messages of protocol buffers.

ghost use Rattle.std.specs.Prelude.{◌<◌, option_map};
ghost use Rattle.warg_record.specs.Reading.{varint_at, counted_at, field_at, optional_at, number_at};
ghost use Rattle.warg_record.specs.Answer.{GivesOrForm};

use crate::error::EnvelopeError;

/// A number of at most `left` bytes in groups of seven bits, in its shortest form.
#[tactic(auto, unfolding(crate::specs::Reading::varint_at))]
fn varint_of(left: u8, bytes: &[u8]) -> Result<(u64, &[u8]), EnvelopeError>
    ensures { GivesOrForm (λ x. (x.0, x.1.now)) result (varint_at left bytes.now) }
{
    if left == 0 {
        return Err(EnvelopeError::Form);
    }
    let [first, rest @ ..] = bytes else {
        return Err(EnvelopeError::Form);
    };
    if *first < 128 {
        return Ok((u64::from(*first), rest));
    }
    let (high, rest) = varint_of(left - 1, rest)?;
    if high == 0 || high >= 1 << 57 {
        return Err(EnvelopeError::Form);
    }
    Ok((u64::from(*first - 128) + 128 * high, rest))
}

/// Bytes behind their length.
#[tactic(auto, unfolding(crate::specs::Reading::counted_at))]
pub fn counted_of(bytes: &[u8]) -> Result<(&[u8], &[u8]), EnvelopeError>
    ensures { GivesOrForm (λ x. (x.0.now, x.1.now)) result (counted_at bytes.now) }
{
    let (length, rest) = varint_of(10, bytes)?;
    if (rest.len() as u64) < length {
        return Err(EnvelopeError::Form);
    }
    Ok(rest.split_at(length as usize))
}

/// The field of this number that holds bytes.
#[tactic(auto, unfolding(crate::specs::Reading::field_at))]
pub fn field_of(number: u8, bytes: &[u8]) -> Result<(&[u8], &[u8]), EnvelopeError>
    requires { number < 16 }
    ensures { GivesOrForm (λ x. (x.0.now, x.1.now)) result (field_at number bytes.now) }
{
    match bytes {
        [key, rest @ ..] if *key == 8 * number + 2 => counted_of(rest),
        _ => Err(EnvelopeError::Form),
    }
}

/// The field of this number that holds bytes, where it is there.
#[tactic(auto, unfolding(crate::specs::Reading::optional_at))]
pub fn optional_of(number: u8, bytes: &[u8]) -> Result<(Option<&[u8]>, &[u8]), EnvelopeError>
    requires { number < 16 }
    ensures { GivesOrForm (λ x. (option_map (λ f. f.now) x.0, x.1.now)) result (optional_at number bytes.now) }
{
    match bytes {
        [key, rest @ ..] if *key == 8 * number + 2 => {
            let (field, rest) = counted_of(rest)?;
            Ok((Some(field), rest))
        }
        _ => Ok((None, bytes)),
    }
}

/// The field of this number that holds a number, which is 0 where the field is not there.
#[tactic(auto, unfolding(crate::specs::Reading::number_at))]
pub fn number_of(number: u8, bytes: &[u8]) -> Result<(u64, &[u8]), EnvelopeError>
    requires { number < 16 }
    ensures { GivesOrForm (λ x. (x.0, x.1.now)) result (number_at number bytes.now) }
{
    match bytes {
        [key, rest @ ..] if *key == 8 * number => {
            let (n, rest) = varint_of(10, rest)?;
            if n == 0 {
                return Err(EnvelopeError::Form);
            }
            Ok((n, rest))
        }
        _ => Ok((0, bytes)),
    }
}
