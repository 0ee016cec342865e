//! Where the bytes of a name lie.

ghost use Rattle.std.specs.Prelude.{◌≡◌, ◌≤◌, length, IfOk};

use std::alloc::{AllocError, Global};
use std::marker::Model;
use text_lexer::limits::MOST_NAME_BYTES;

/// The most bytes that lie in place.
pub const MOST_IN_PLACE: usize = 14;

/// At most 64 bytes: at most 14 lie in place, more in a box. Contracts see the bytes.
#[derive(Debug)]
pub struct Room {
    cells: Cells,
}

#[derive(Debug, Drop)]
enum Cells {
    Short(u8, [u8; MOST_IN_PLACE]),
    Long(u8, Box<[u8; MOST_NAME_BYTES]>),
}

impl Model for Room {
    ghost use Rattle.std.specs.Prelude.{ℕ, List};
    ghost use Rattle.text_ast.specs.Rooms.{bytes_in, Fits};

    ghost Value = { List ℕ };

    ghost view = { λ room. bytes_in room.cells };

    ghost invariant = { λ room. Fits room.cells };
}

// Written by hand, so that where a room is dropped its cases are not told apart.
impl Drop for Room {
    fn drop(self) {
        let Room { cells } = self;
    }
}

impl Room {
    /// Room with these bytes.
    pub fn new(alloc: Global, bytes: &[u8]) -> Result<Room, AllocError>
        requires { length bytes.now ≤ MOST_NAME_BYTES }
        ensures { IfOk result (λ room. room ≡ bytes.now) }
    {
        let cells = if bytes.len() <= MOST_IN_PLACE {
            let mut cells = [0; MOST_IN_PLACE];
            cells[..bytes.len()].copy_from_slice(bytes);
            Cells::Short(bytes.len() as u8, cells)
        } else {
            let mut cells = [0; MOST_NAME_BYTES];
            cells[..bytes.len()].copy_from_slice(bytes);
            Cells::Long(bytes.len() as u8, Box::new(alloc, cells)?)
        };
        Ok(Room { cells })
    }

    /// The bytes.
    pub fn bytes(&self) -> &[u8]
        ensures { result.now ≡ self.now }
    {
        match &self.cells {
            Cells::Short(len, cells) => &cells[..*len as usize],
            Cells::Long(len, cells) => &cells[..*len as usize],
        }
    }
}
