//! Gates for two gates that may not be made yet.

ghost use Rattle.std.specs.Prelude.{◌&&◌, ◌||◌, IfOk};
ghost use Rattle.ground_instances.specs.Instances.{IsJoined, IsThere};

use crate::board::Board;
use std::alloc::AllocError;

/// The gate that is true where both are, if both are made.
pub(crate) fn join_both(
    board: &mut Board,
    left: Option<u32>,
    right: Option<u32>,
) -> Result<Option<u32>, AllocError>
    requires left { IsThere board.old left }
    requires right { IsThere board.old right }
    ensures { IfOk result (IsJoined board.old board.new (λ a b. a && b) left right) }
{
    match (left, right) {
        (Some(a), Some(b)) => {
            let gate = board.both(a, b)?;
            Ok(Some(gate))
        }
        _ => Ok(None),
    }
}

/// The gate that is true where one of them is, if both are made.
pub(crate) fn join_either(
    board: &mut Board,
    left: Option<u32>,
    right: Option<u32>,
) -> Result<Option<u32>, AllocError>
    requires left { IsThere board.old left }
    requires right { IsThere board.old right }
    ensures { IfOk result (IsJoined board.old board.new (λ a b. a || b) left right) }
{
    match (left, right) {
        (Some(a), Some(b)) => {
            let gate = board.either(a, b)?;
            Ok(Some(gate))
        }
        _ => Ok(None),
    }
}
