// Images, built field by field or from hexadecimal text.
use std::alloc::{AllocError, Global};

// Appends the bytes that a text gives in hexadecimal, in words with blanks between them. The texts are all of whole bytes, so that
// only memory can fail.
fn push_hex(image: &mut Vec<u8>, alloc: Global, text: &str) -> Result<(), AllocError> {
    for word in text.split_ascii_whitespace() {
        image.extend_from_slice(&hex::decode(alloc, word).map_err(|_| AllocError)?)?;
    }
    Ok(())
}

// Appends a field.
pub(crate) fn push_field(image: &mut Vec<u8>, tag: u8, value: &[u8]) -> Result<(), AllocError> {
    let length = (value.len() % 65536) as u16;
    image.push(tag)?;
    image.extend_from_slice(&length.to_be_bytes())?;
    image.extend_from_slice(value)
}

// Appends a note of count 1.
pub(crate) fn push_note(image: &mut Vec<u8>, first: u8, second: u8) -> Result<(), AllocError> {
    push_field(image, 3, &[first, second, 0, 1])
}

// Makes the image that two texts give one behind the other.
pub(crate) fn joined(alloc: Global, front: &str, rest: &str) -> Result<Vec<u8>, AllocError> {
    let mut image = Vec::new(alloc);
    push_hex(&mut image, alloc, front)?;
    push_hex(&mut image, alloc, rest)?;
    Ok(image)
}

// Makes an image of limit 3 and the names 00, 01 and so on.
pub(crate) fn named(alloc: Global, names: u8) -> Result<Vec<u8>, AllocError> {
    let mut image = Vec::new(alloc);
    push_field(&mut image, 1, &[3])?;
    for i in 0..names {
        let name = format!(in alloc; "{i:02}")?;
        push_field(&mut image, 2, name.as_bytes())?;
    }
    Ok(image)
}

// Makes an image of limit 3, the name P1, another name, and 2338 notes of one pair.
pub(crate) fn long(alloc: Global, name: &[u8]) -> Result<Vec<u8>, AllocError> {
    let mut image = Vec::new(alloc);
    push_field(&mut image, 1, &[3])?;
    push_field(&mut image, 2, b"P1")?;
    push_field(&mut image, 2, name)?;
    for _ in 0..2338 {
        push_note(&mut image, 0, 1)?;
    }
    Ok(image)
}

// Makes an image of 64 names and notes of so many different pairs, at most 1024.
pub(crate) fn paired(alloc: Global, pairs: u16) -> Result<Vec<u8>, AllocError> {
    let mut image = named(alloc, 64)?;
    for i in 0..pairs {
        push_note(&mut image, (i / 32 % 32) as u8, (32 + i % 32) as u8)?;
    }
    Ok(image)
}

// Writes bytes over those that stand from a place on.
pub(crate) fn overwrite(image: &mut Vec<u8>, at: usize, bytes: &[u8]) {
    for (old, new) in image.iter_mut().skip(at).zip(bytes) {
        *old = *new;
    }
}
