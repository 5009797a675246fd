// What a coding that has passed its rules asks for.
ghost use Rattle.std.specs.Prelude.{◌≡◌, Some, None, Option, if◌then◌else◌};
ghost use Rattle.ends.specs.Tasks.{lacks_border as no_border};

use crate::mode::Mode;
use crate::tile::Tile;
use kinds::Qp;
use std::marker::Model;

// A tile, its mode and its QP. What the mode repeats lies in the plane.
#[derive(Clone, Copy)]
pub struct Task {
    pub tile: Tile,
    pub mode: Mode,
    pub qp: Qp,
}

impl Model for Task {
    ghost use Rattle.ends.specs.Tasks.{Task as Asked, Bordered};

    ghost Value = { Asked };

    ghost view = { λ t. record { tile = t.tile; mode = t.mode; qp = t.qp } };

    ghost inverse = { λ t. record { tile = t.tile; mode = t.mode; qp = t.qp } };

    ghost invariant = { λ t. Bordered t.tile t.mode };
}

impl Task {
    // The task, if what its mode repeats lies in the plane.
    pub fn new(tile: Tile, mode: Mode, qp: Qp) -> Option<Task>
        ensures { result ≡ (if no_border tile mode then None else Some (record { tile = tile; mode = mode; qp = qp })) }
    {
        if lacks_border(tile, mode) {
            return None;
        }
        Some(Task { tile, mode, qp })
    }
}

fn lacks_border(tile: Tile, mode: Mode) -> bool
    ensures { result ≡ no_border tile mode }
{
    match mode {
        Mode::Vertical => tile.y == 0,
        Mode::Horizontal => tile.x == 0,
        Mode::Colocated | Mode::Mean => false,
    }
}
