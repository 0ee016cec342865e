//! The traits of outside objects, and what their calls answer.
ghost use Rattle.std.specs.Prelude.{◌≡◌, ℕ, ◌<◌, ◌≤◌, List, [], ◌∷◌, length, take, Option, IfOk};
ghost use Rattle.std.specs.Prelude.{IfSome};
ghost use Rattle.std.specs.Prelude.{OnOk, OnErr};
ghost use Rattle.app_flow.specs.Faults.{Rose};
ghost use Rattle.app_flow.specs.Files.{Files, IsFound, IsWithin};
ghost use Rattle.app_flow.specs.Told.{Appends, AppendsFront};
ghost use Rattle.app_flow.specs.declared.outside.ShelfErr.TheVariants.{OutOfMemory};

use std::alloc::{AllocError, Global};
use thiserror::Error;

/// The outside object met a fault, which it counted.
#[derive(Clone, Copy, Debug, PartialEq, Eq, Error)]
#[error("a fault of the outside")]
pub struct Failed;

/// Why a shelf gave no answer.
#[derive(Clone, Copy, Debug, PartialEq, Eq, Error)]
pub enum ShelfErr {
    /// The shelf met a fault, which it counted.
    #[error("a fault of the shelf")]
    Failed,
    /// There was no memory for the bytes of the file.
    #[error("out of memory")]
    OutOfMemory,
}

impl From<AllocError> for ShelfErr {
    ghost from_gives = { λ _ error. error ≡ OutOfMemory };

    fn from(_error: AllocError) -> ShelfErr {
        ShelfErr::OutOfMemory
    }
}

/// What a shelf has under a name.
#[derive(Debug, Drop)]
pub enum Found {
    /// The bytes of the file, at most as many as the limit.
    Bytes(Vec<u8>),
    /// There is no file of that name.
    Missing,
    /// The file has more bytes than the limit.
    TooLong,
}

/// Where bytes are written.
pub trait Sink {
    // The bytes put so far, where the sink tells them. A sink may stop telling, and never begins
    // to.
    ghost told: { Self → Option (List ℕ) };

    // How many faults it counted.
    ghost faults: { Self → ℕ };

    /// Takes at least one byte from the front of `piece`, and says how many.
    fn put(&mut self, piece: &[u8]) -> Result<usize, Failed>
        requires { 0 < length piece.now }
        ensures some { IfOk result (λ n. 0 < n) }
        ensures within { IfOk result (λ n. n ≤ length piece.now) }
        ensures appended { IfOk result
            (λ n. Appends (told self.old) (told self.new) (take n piece.now)) }
        ensures kept { OnErr result (told self.new ≡ told self.old) }
        ensures counted { OnErr result (Rose (faults self.old) (faults self.new)) }
        ensures never_falls { faults self.old ≤ faults self.new };
}

/// Where files are read.
pub trait Shelf {
    // The files, where the shelf tells them.
    ghost told: { Self → Option Files };

    // The names that were fetched so far, in their order, where the shelf tells them. A shelf may
    // stop telling them, and never begins to.
    ghost calls: { Self → Option (List (List ℕ)) };

    // How many faults it counted.
    ghost faults: { Self → ℕ };

    /// Reads the file of this name, up to `limit` bytes.
    ///
    /// `Failed` comes only where the shelf counted a fault, and `OutOfMemory` for want of memory.
    fn fetch(&mut self, alloc: Global, name: &[u8], limit: usize) -> Result<Found, ShelfErr>
        ensures found { IfOk result
            (λ found. IfSome (told self.old) (λ files. IsFound (files name.now) limit found)) }
        ensures within { IfOk result (IsWithin limit) }
        ensures called { Appends (calls self.old) (calls self.new) (name.now ∷ []) }
        ensures kept { told self.new ≡ told self.old }
        ensures counted { result ≡ Err ShelfErr.Failed → Rose (faults self.old) (faults self.new) }
        ensures never_falls { faults self.old ≤ faults self.new };
}

/// Puts the whole piece, or after a fault a front of it.
pub fn put_all<W: Sink>(out: &mut W, piece: &[u8]) -> Result<(), Failed>
    ensures ok { OnOk result (Appends (W.told out.old) (W.told out.new) piece.now) }
    ensures err { OnErr result (AppendsFront (W.told out.old) (W.told out.new) piece.now) }
    ensures counted { OnErr result (Rose (W.faults out.old) (W.faults out.new)) }
    ensures never_falls { W.faults out.old ≤ W.faults out.new }
{
    let mut done = 0;
    while done < piece.len() {
        done += out.put(&piece[done..])?;
    }
    Ok(())
}
