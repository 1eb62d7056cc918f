//! Sections as bytes, and the items of one that is not whole yet.

ghost use Rattle.std.specs.Prelude.{◌≡◌, ◌<◌, ◌≤◌, ◌+◌, ◌^◌, ◌++◌, ◌∷◌, ◌⊎◌, [], ℕ, length, OnOk, OnErr, IfOk, Err};
ghost use Rattle.comp_format.specs.Numbers.{number_text};
ghost use Rattle.comp_encoder.specs.Builder.{IsEnded, BeginsWith, begun};

use crate::sink::{number_len, write_number};
use comp_format::EncodeError;
use comp_format::section::HEADER;
use warg_values::Memory;

/// A length as the format writes it.
pub fn short(length: usize) -> Result<u32, EncodeError>
    ensures value { IfOk result (λ n. n ≡ length) }
    ensures fits { OnOk result (length < 2 ^ 32) }
    ensures too_large { (n : ℕ) → result ≡ Err (EncodeError.TooLarge n) → (n ≡ length) × (2 ^ 32 ≤ n) }
{
    match u32::try_from(length) {
        Ok(length) => Ok(length),
        Err(_) => Err(EncodeError::TooLarge(length as u64)),
    }
}

/// Writes a section: its id, the length of its content, and the content, which is given in two pieces.
pub fn write_section(
    out: &mut Vec<u8>,
    id: u8,
    head: &[u8],
    content: &[u8],
) -> Result<(), EncodeError>
    ensures text { OnOk result
        (out.new.items
        ≡ out.old.items ++ (id ∷ (number_text (length (head.now ++ content.now)) ++ (head.now ++ content.now)))) }
    ensures front { BeginsWith out.old.items out.new.items }
    ensures fits { OnOk result (length (head.now ++ content.now) < 2 ^ 32) }
    ensures too_large { (n : ℕ) → result ≡ Err (EncodeError.TooLarge n)
        → (n ≡ length (head.now ++ content.now)) × (2 ^ 32 ≤ n) }
{
    let length = short(head.len() + content.len())?;
    out.push(id)?;
    write_number(out, length as u64)?;
    out.extend_from_slice(head)?;
    out.extend_from_slice(content)?;
    Ok(())
}

/// Writes what stands in front of so many items in their section: its id, the length of its content, and the count. The
/// items have so many bytes.
fn write_head(out: &mut Vec<u8>, id: u8, count: usize, items_len: usize) -> Result<(), EncodeError>
    requires { items_len < 2 ^ 63 }
    ensures text { OnOk result
        (out.new.items
        ≡ out.old.items ++ (id ∷ (number_text (length (number_text count) + items_len) ++ number_text count))) }
    ensures front { BeginsWith out.old.items out.new.items }
    ensures count { OnOk result (count < 2 ^ 32) }
    ensures fits { OnOk result (length (number_text count) + items_len < 2 ^ 32) }
    ensures too_large { (n : ℕ) → result ≡ Err (EncodeError.TooLarge n)
        → (2 ^ 32 ≤ n) × ((n ≡ count) ⊎ (n ≡ length (number_text count) + items_len)) }
{
    let count = short(count)? as u64;
    let length = short(number_len(count) + items_len)?;
    out.push(id)?;
    write_number(out, length as u64)?;
    write_number(out, count)?;
    Ok(())
}

/// Writes the section of this many items, which have these bytes.
fn write_vector(out: &mut Vec<u8>, id: u8, count: usize, items: &[u8]) -> Result<(), EncodeError>
    ensures text { OnOk result
        (out.new.items
        ≡ out.old.items
        ++ (id ∷ (number_text (length (number_text count ++ items.now)) ++ (number_text count ++ items.now)))) }
    ensures front { BeginsWith out.old.items out.new.items }
    ensures count { OnOk result (count < 2 ^ 32) }
    ensures fits { OnOk result (length (number_text count ++ items.now) < 2 ^ 32) }
    ensures too_large { (n : ℕ) → result ≡ Err (EncodeError.TooLarge n)
        → (2 ^ 32 ≤ n) × ((n ≡ count) ⊎ (n ≡ length (number_text count ++ items.now))) }
{
    write_head(out, id, count, items.len())?;
    out.extend_from_slice(items)?;
    Ok(())
}

/// Neighbouring items that share a section.
#[derive(Debug, Drop)]
pub struct Run {
    /// The id of the section.
    pub id: u8,
    /// How many items there are.
    pub count: usize,
    /// Their bytes, in order.
    pub bytes: Vec<u8>,
}

impl Run {
    /// One item more. As each has a byte at least, there is no memory for more than can be counted.
    pub fn push(&mut self, item: &[u8]) -> Result<(), Memory>
        ensures bytes { OnOk result (self.new.bytes.items ≡ self.old.bytes.items ++ item.now) }
        ensures count { OnOk result (self.new.count ≡ self.old.count + 1) }
        ensures same_bytes { OnErr result (self.new.bytes.items ≡ self.old.bytes.items) }
        ensures same_count { OnErr result (self.new.count ≡ self.old.count) }
        ensures id { self.new.id ≡ self.old.id }
    {
        let Some(count) = self.count.checked_add(1) else {
            return Err(Memory);
        };
        self.bytes.extend_from_slice(item)?;
        self.count = count;
        Ok(())
    }

    /// Without its items.
    pub fn clear(&mut self)
        ensures bytes { self.new.bytes.items ≡ [] }
        ensures count { self.new.count ≡ 0 }
        ensures id { self.new.id ≡ self.old.id }
    {
        self.count = 0;
        self.bytes.clear();
    }
}

/// Begins a component, where nothing was written.
fn begin(out: &mut Vec<u8>) -> Result<(), Memory>
    ensures begun { OnOk result (out.new.items ≡ begun out.old.items) }
    ensures unchanged { OnErr result (out.new.items ≡ out.old.items) }
{
    if out.is_empty() {
        out.extend_from_slice(&HEADER)?;
    }
    Ok(())
}

/// Ends the section of a run, if it has items, and gives the length or count that can't be written: one of this section,
/// or what was told before.
pub fn end_run(out: &mut Vec<u8>, run: &Run, told: Option<u64>) -> Result<Option<u64>, Memory>
    ensures ended { IfOk result
        (λ fault. IsEnded run.now.id run.now.count run.now.bytes.items out.old.items told out.new.items fault) }
    ensures front { BeginsWith out.old.items out.new.items }
{
    begin(out)?;
    if run.count == 0 {
        return Ok(told);
    }
    match write_vector(out, run.id, run.count, &run.bytes) {
        Ok(()) => Ok(told),
        Err(EncodeError::TooLarge(large)) => Ok(Some(large)),
        Err(EncodeError::Memory) => Err(Memory),
    }
}

/// Puts bytes in front of others.
fn put_in_front(bytes: &mut Vec<u8>, front: &[u8]) -> Result<(), Memory>
    ensures { OnOk result (bytes.new.items ≡ front.now ++ bytes.old.items) }
{
    bytes.extend_from_slice(front)?;
    bytes.rotate_right(front.len());
    Ok(())
}

/// Ends the section of a run that has items, in its own buffer.
fn end_in_place(out: Vec<u8>, run: Run, told: Option<u64>) -> Result<(Vec<u8>, Option<u64>), Memory>
    requires { 0 < run.count }
    ensures { IfOk result (λ r. IsEnded run.id run.count run.bytes.items out.items told r.0.items r.1) }
{
    let mut front = out;
    begin(&mut front)?;
    let Run {
        id,
        count,
        mut bytes,
    } = run;
    match write_head(&mut front, id, count, bytes.len()) {
        Ok(()) => {}
        Err(EncodeError::TooLarge(large)) => return Ok((front, Some(large))),
        Err(EncodeError::Memory) => return Err(Memory),
    }
    put_in_front(&mut bytes, &front)?;
    Ok((bytes, told))
}

/// Ends the last section, in the longer of the two buffers, so that no more is moved than has to be.
pub fn end_last(out: Vec<u8>, run: Run, told: Option<u64>) -> Result<(Vec<u8>, Option<u64>), Memory>
    ensures { IfOk result (λ r. IsEnded run.id run.count run.bytes.items out.items told r.0.items r.1) }
{
    if run.count > 0 && run.bytes.len() > out.len() {
        return end_in_place(out, run, told);
    }
    let mut whole = out;
    let told = end_run(&mut whole, &run, told)?;
    Ok((whole, told))
}
