//! Where bytes are written, each length, count and index in its shortest spelling.

ghost use Rattle.std.specs.Prelude.{◌≡◌, ◌++◌, ◌<◌, ◌≤◌, ◌^◌, ℕ, [], length, max, OnOk, IfOk, Err};
ghost use Rattle.std.specs.Str.{IsUtf8};
ghost use Rattle.comp_format.specs.Numbers.{leb_text, number_text, signed_leb_text, signed_index_text};
ghost use Rattle.comp_format.specs.Vectors.{name_text};
ghost use Rattle.comp_encoder.specs.Builder.{BeginsWith};

use comp_format::EncodeError;
use warg_values::Memory;

/// Bytes, and the largest length, count or index that was written among them.
///
/// A number that is too large is written too, so that it is tested once, in the end.
#[derive(Debug, Drop)]
pub struct Sink {
    /// What was written, in order.
    pub bytes: Vec<u8>,
    /// The largest number that was written, 0 before the first.
    pub largest: u64,
}

/// LEB128 in at most so many bytes.
#[tactic(auto, using(crate::proofs::WriteLaws::leb_text_last, crate::proofs::WriteLaws::leb_text_next), unfolding(comp_format::specs::Numbers::leb_text))]
fn write_leb(out: &mut Vec<u8>, most: u8, number: u64) -> Result<(), Memory>
    ensures text { OnOk result (out.new.items ≡ out.old.items ++ leb_text most number) }
    ensures front { BeginsWith out.old.items out.new.items }
{
    if most == 0 {
        return Ok(());
    }
    if number < 128 {
        out.push(number as u8)?;
        return Ok(());
    }
    out.push(128 + (number % 128) as u8)?;
    write_leb(out, most - 1, number / 128)?;
    Ok(())
}

/// A number in its shortest spelling.
#[tactic(auto, unfolding(comp_format::specs::Numbers::number_text))]
pub fn write_number(out: &mut Vec<u8>, number: u64) -> Result<(), Memory>
    ensures text { OnOk result (out.new.items ≡ out.old.items ++ number_text number) }
    ensures front { BeginsWith out.old.items out.new.items }
{
    write_leb(out, 5, number)?;
    Ok(())
}

/// How many bytes LEB128 in at most so many bytes takes.
#[tactic(auto, using(crate::proofs::WriteLaws::leb_text_last, crate::proofs::WriteLaws::leb_text_next), unfolding(comp_format::specs::Numbers::leb_text))]
fn leb_len(most: u8, number: u64) -> usize
    ensures value { result ≡ length (leb_text most number) }
    ensures bound { result ≤ most }
{
    if most == 0 {
        return 0;
    }
    if number >= 128 {
        return 1 + leb_len(most - 1, number / 128);
    }
    1
}

/// How many bytes the shortest spelling of a number takes.
#[tactic(auto, unfolding(comp_format::specs::Numbers::number_text))]
pub fn number_len(number: u64) -> usize
    ensures value { result ≡ length (number_text number) }
    ensures bound { result ≤ 5 }
{
    leb_len(5, number)
}

/// Signed LEB128 of a number from 0 on, in at most so many bytes.
#[tactic(auto, using(crate::proofs::WriteLaws::signed_leb_text_last, crate::proofs::WriteLaws::signed_leb_text_next), unfolding(comp_format::specs::Numbers::signed_leb_text))]
fn write_signed_leb(out: &mut Vec<u8>, most: u8, number: u64) -> Result<(), Memory>
    ensures { OnOk result (out.new.items ≡ out.old.items ++ signed_leb_text most number) }
{
    if most == 0 {
        return Ok(());
    }
    if number < 64 {
        out.push(number as u8)?;
        return Ok(());
    }
    out.push(128 + (number % 128) as u8)?;
    write_signed_leb(out, most - 1, number / 128)?;
    Ok(())
}

impl Sink {
    /// Nothing written yet, in the room of a buffer, which may hold what was written before.
    pub fn new(buffer: Vec<u8>) -> Self
        ensures bytes { result.bytes.items ≡ [] }
        ensures largest { result.largest ≡ 0 }
    {
        let mut bytes = buffer;
        bytes.clear();
        Sink { bytes, largest: 0 }
    }

    /// Bytes that are no number.
    pub fn write(&mut self, bytes: &[u8]) -> Result<(), Memory>
        ensures text { OnOk result (self.new.bytes.items ≡ self.old.bytes.items ++ bytes.now) }
        ensures largest { OnOk result (self.new.largest ≡ self.old.largest) }
    {
        self.bytes.extend_from_slice(bytes)?;
        Ok(())
    }

    /// A length, a count or an index.
    pub fn write_number(&mut self, number: u64) -> Result<(), Memory>
        ensures text { OnOk result (self.new.bytes.items ≡ self.old.bytes.items ++ number_text number) }
        ensures largest { OnOk result (self.new.largest ≡ max self.old.largest number) }
    {
        write_number(&mut self.bytes, number)?;
        self.largest = self.largest.max(number);
        Ok(())
    }

    /// The index of a type, as a value type has it.
    #[tactic(auto, unfolding(comp_format::specs::Numbers::signed_index_text))]
    pub fn write_signed(&mut self, index: u32) -> Result<(), Memory>
        ensures text { OnOk result (self.new.bytes.items ≡ self.old.bytes.items ++ signed_index_text index) }
        ensures largest { OnOk result (self.new.largest ≡ max self.old.largest index) }
    {
        write_signed_leb(&mut self.bytes, 5, index as u64)?;
        self.largest = self.largest.max(index as u64);
        Ok(())
    }

    /// A name: its length, and its bytes.
    pub fn write_name(&mut self, name: &str) -> Result<(), Memory>
        ensures text { OnOk result (self.new.bytes.items ≡ self.old.bytes.items ++ name_text name.now) }
        ensures largest { OnOk result (self.new.largest ≡ max self.old.largest (length name.now)) }
        ensures utf8 { OnOk result (IsUtf8 name.now) }
    {
        let bytes = name.as_bytes();
        self.write_number(bytes.len() as u64)?;
        self.write(bytes)?;
        Ok(())
    }

    /// The bytes, where each length, count and index can be written. `TooLarge` has the largest.
    pub fn into_bytes(self) -> Result<Vec<u8>, EncodeError>
        ensures bytes { IfOk result (λ bytes. bytes.items ≡ self.bytes.items) }
        ensures fits { OnOk result (self.largest < 2 ^ 32) }
        ensures too_large { (n : ℕ) → result ≡ Err (EncodeError.TooLarge n) → (n ≡ self.largest) × (2 ^ 32 ≤ n) }
    {
        let Sink { bytes, largest } = self;
        if u32::try_from(largest).is_err() {
            return Err(EncodeError::TooLarge(largest));
        }
        Ok(bytes)
    }
}
