//! A secret that is read along many pairs of fields.

use std::alloc::{AllocError, Global};

/// How many pairs.
const PAIRS: u16 = 20;

/// Puts a number at the end.
fn push_number(alloc: Global, text: &mut Vec<u8>, number: u16) -> Result<(), AllocError> {
    let digits = number.to_string(alloc)?;
    text.extend_from_slice(digits.as_bytes())
}

/// A model whose fields are ids of another, of which the names begin with a letter.
fn push_links(
    alloc: Global,
    text: &mut Vec<u8>,
    head: &[u8],
    letter: &[u8],
    of: &[u8],
) -> Result<(), AllocError> {
    text.extend_from_slice(head)?;
    for number in 0..PAIRS {
        text.extend_from_slice(letter)?;
        push_number(alloc, text, number)?;
        text.extend_from_slice(of)?;
    }
    text.extend_from_slice(b"}")
}

/// Whose formula has 445 terms and 126 nodes where the secret becomes public.
pub(super) fn linked(alloc: Global) -> Result<Vec<u8>, AllocError> {
    let mut text = Vec::new(alloc);
    let b = b":Id(B){read:none,write:none}";
    let c = b":Id(C){read:none,write:none}";
    push_links(
        alloc,
        &mut text,
        b"model A{create:none,delete:none",
        b",f",
        b,
    )?;
    push_links(
        alloc,
        &mut text,
        b"model B{create:none,delete:none",
        b",g",
        c,
    )?;
    text.extend_from_slice(b"principal model C{create:none,delete:none,secret:Text{read:")?;
    text.extend_from_slice(b"c->A::Find({}).flat_map(a->[a.f0.g0")?;
    for number in 1..PAIRS {
        text.extend_from_slice(b",a.f")?;
        push_number(alloc, &mut text, number)?;
        text.extend_from_slice(b".g")?;
        push_number(alloc, &mut text, number)?;
    }
    text.extend_from_slice(b"]),write:none}}")?;
    Ok(text)
}
