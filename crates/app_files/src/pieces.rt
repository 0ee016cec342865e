//! Texts put together from pieces.

ghost use Rattle.std.specs.Prelude.{◌≡◌, ◌++◌, map, IfOk, OnOk};
ghost use Rattle.std.specs.List.{concat};

use std::alloc::{AllocError, Global};

/// Puts the pieces at the end, one after another.
pub fn push_pieces(out: &mut Vec<u8>, pieces: &[&[u8]]) -> Result<(), AllocError>
    ensures { OnOk result (out.new.items ≡ out.old.items
        ++ concat (map (λ piece. piece.now) pieces.now)) }
{
    for piece in pieces {
        out.extend_from_slice(piece)?;
    }
    Ok(())
}

/// The pieces, one after another.
pub fn join_pieces(alloc: Global, pieces: &[&[u8]]) -> Result<Vec<u8>, AllocError>
    ensures { IfOk result (λ text. text.items ≡ concat (map (λ piece. piece.now) pieces.now)) }
{
    let mut text = Vec::new(alloc);
    push_pieces(&mut text, pieces)?;
    Ok(text)
}
