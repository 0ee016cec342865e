//! Where bytes are read from, and why reading stops.
ghost use Rattle.std.specs.Prelude.{◌≡◌, ◌<◌, ◌≤◌, ◌⊎◌, ℕ, List, length, take, Option};
ghost use Rattle.std.specs.Prelude.{IfErr, IfOk, OnErr, OnOk};
ghost use Rattle.std.specs.Io.KnownBytes.{Consumes, IsAtEnd};
ghost use Rattle.app_flow.specs.Faults.{Rose};
ghost use Rattle.door_lines.specs.Reading.{IsReadOn, IsWhole, StopsReading};
ghost use Rattle.door_lines.specs.Taking.{HasCome};
ghost use Rattle.door_lines.specs.declared.source.FlowErr.TheVariants.{ReadFault, OutOfMemory};

use app_flow::Failed;
use std::alloc::{AllocError, Global};
use thiserror::Error;

/// Why reading stops before its end.
#[derive(Clone, Copy, Debug, PartialEq, Eq, Error)]
pub enum FlowErr {
    /// The source met a fault, which it counted.
    #[error("a fault of the input")]
    ReadFault,
    /// The source has more bytes than this.
    #[error("more than {limit} bytes")]
    TooLong { limit: usize },
    /// As many bytes were taken as there may be, and they end within a line.
    #[error("the limit of the input")]
    Budget,
    /// There was no memory for the bytes.
    #[error("out of memory")]
    OutOfMemory,
}

impl From<Failed> for FlowErr {
    ghost from_gives = { λ _ error. error ≡ ReadFault };

    fn from(_error: Failed) -> FlowErr {
        FlowErr::ReadFault
    }
}

impl From<AllocError> for FlowErr {
    ghost from_gives = { λ _ error. error ≡ OutOfMemory };

    fn from(_error: AllocError) -> FlowErr {
        FlowErr::OutOfMemory
    }
}

/// Where bytes are read from.
pub trait Source {
    // The bytes that are left, where the source tells them.
    ghost told: { Self → Option (List ℕ) };

    // How many faults it counted.
    ghost faults: { Self → ℕ };

    /// Takes the next bytes into the front of `buf`, and says how many: none only at the end.
    fn take(&mut self, buf: &mut [u8]) -> Result<usize, Failed>
        requires { 0 < length buf.old }
        ensures within { IfOk result (λ n. n ≤ length buf.new) }
        ensures taken { IfOk result
            (λ n. Consumes (told self.old) (told self.new) (take n buf.new)) }
        ensures ended { result ≡ Ok 0 → IsAtEnd (told self.new) }
        ensures kept { OnErr result (told self.new ≡ told self.old) }
        ensures counted { OnErr result (Rose (faults self.old) (faults self.new)) }
        ensures never_falls { faults self.old ≤ faults self.new };
}

/// Appends the next bytes, and says how many.
fn take_more<S: Source>(src: &mut S, bytes: &mut Vec<u8>) -> Result<usize, FlowErr>
    ensures came { IfOk result (λ n.
        HasCome (S.told src.old) (S.told src.new) bytes.old.items bytes.new.items n) }
    ensures ended { result ≡ Ok 0 → IsAtEnd (S.told src.new) }
    ensures read_on { IsReadOn (S.told src.old) (S.told src.new) }
    ensures stops { IfErr result (λ e. (e ≡ FlowErr.OutOfMemory)
        ⊎ ((e ≡ FlowErr.ReadFault) × Rose (S.faults src.old) (S.faults src.new))) }
    ensures never_falls { S.faults src.old ≤ S.faults src.new }
{
    let mut piece = [0; 4096];
    let n = src.take(&mut piece)?;
    bytes.extend_from_slice(&piece[..n])?;
    Ok(n)
}

/// All bytes that are left, if there are at most `limit`.
///
/// After an `Err` the source may have been read further.
pub fn read_all<S: Source>(alloc: Global, src: &mut S, limit: usize) -> Result<Vec<u8>, FlowErr>
    ensures whole { IfOk result (λ bytes. IsWhole (S.told src.old) bytes.items) }
    ensures ended { OnOk result (IsAtEnd (S.told src.new)) }
    ensures within { IfOk result (λ bytes. length bytes.items ≤ limit) }
    ensures read_on { IsReadOn (S.told src.old) (S.told src.new) }
    ensures stops { IfErr result
        (StopsReading (Rose (S.faults src.old) (S.faults src.new)) (S.told src.old) limit) }
    ensures never_falls { S.faults src.old ≤ S.faults src.new }
{
    let mut bytes = Vec::new(alloc);
    while bytes.len() <= limit {
        if take_more(src, &mut bytes)? == 0 {
            return Ok(bytes);
        }
    }
    Err(FlowErr::TooLong { limit })
}
