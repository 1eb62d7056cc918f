//! Components in hexadecimal digits, and their imports written into a state.

use crate::form::keeps_form;
use comp_format::section::HEADER;
use comp_shape::read_shape;
use compose_types::{Entity, Shape, TypeEncoder, TypeState};
use std::alloc::Global;
use std::test::Fail;
use warg_values::Text;

/// The component of sections in hexadecimal digits, with spaces between them.
pub fn component(alloc: Global, sections: &str) -> Result<Vec<u8>, Fail> {
    let mut bytes = Vec::from_slice(alloc, &HEADER)?;
    for section in sections.split(' ') {
        bytes.extend_from_slice(&hex::decode(alloc, section)?)?;
    }
    Ok(bytes)
}

/// The shape of a component.
pub fn shape(alloc: Global, bytes: &[u8]) -> Result<Shape, Fail> {
    match read_shape(alloc, bytes) {
        Ok(shape) => Ok(shape),
        Err(error) => Err(Fail::new(format_args!("{error:?}"))),
    }
}

/// The shape of the component of these sections.
pub fn shape_of(alloc: Global, sections: &str) -> Result<Shape, Fail> {
    let bytes = component(alloc, sections)?;
    shape(alloc, &bytes)
}

/// Writes an import into a state, and gives the index of what is imported.
pub fn write(
    alloc: Global,
    encoder: &TypeEncoder<'_>,
    state: &mut TypeState,
    import: &(Text, Entity),
) -> Result<u32, Fail> {
    let (name, entity) = import;
    if name.as_str().is_empty() {
        return Err(Fail::new("no name"));
    }
    if !keeps_form(entity) {
        return Err(Fail::new("no written form"));
    }
    if !state.knows(entity) {
        return Err(Fail::new("a type that is not known"));
    }
    let ty = encoder.entity(alloc, state, entity)?;
    let index = state.import(alloc, name.as_str(), entity, &ty)?;
    Ok(index)
}

/// Writes imports into a state, in order.
pub fn write_all(
    alloc: Global,
    encoder: &TypeEncoder<'_>,
    state: &mut TypeState,
    imports: &[(Text, Entity)],
) -> Result<(), Fail> {
    for import in imports {
        write(alloc, encoder, state, import)?;
    }
    Ok(())
}

/// Fails where bytes are another component than that of these sections.
pub fn are(alloc: Global, bytes: &[u8], sections: &str) -> Result<(), Fail> {
    let wanted = component(alloc, sections)?;
    if bytes != wanted.as_slice() {
        let digits = hex::encode(alloc, bytes)?;
        return Err(Fail::new(format_args!("{digits} is written in place of {sections}")));
    }
    Ok(())
}
