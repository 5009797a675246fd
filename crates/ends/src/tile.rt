// A tile: a square of the samples of a plane.
ghost use Rattle.std.specs.Prelude.{◌≡◌, ◌*◌, ◌<◌, ◌≤◌, Some, None, if◌then◌else◌};
ghost use Rattle.ends.specs.Refusals.{bad_place};

use crate::plane::Size;
use std::marker::Model;

// The plane's size, the place of the tile's top left sample, and its edge. The tile lies in the plane.
#[derive(Clone, Copy)]
pub struct Tile {
    pub size: Size,
    pub x: usize,
    pub y: usize,
    pub edge: usize,
}

impl Model for Tile {
    ghost use Rattle.ends.specs.Tasks.{Tile as Square, Placed};

    ghost Value = { Square };

    ghost view = { λ t. record { size = t.size; x = t.x; y = t.y; edge = t.edge } };

    ghost inverse = { λ t. record { size = t.size; x = t.x; y = t.y; edge = t.edge } };

    ghost invariant = { λ t. Placed (record { size = t.size; x = t.x; y = t.y; edge = t.edge }) };
}

impl Tile {
    // The tile at a place, if it is in line there and does not leave the plane.
    pub fn new(size: Size, edge: usize, x: u16, y: u16) -> Option<Tile>
        requires some { 0 < edge }
        requires few { edge ≤ 16 }
        ensures { result ≡ (if bad_place size edge x y then None else Some (record { size = size; x = x; y = y; edge = edge })) }
    {
        let (x, y) = (usize::from(x), usize::from(y));
        let in_line = x % edge == 0 && y % edge == 0;
        let inside = x + edge <= usize::from(size.width) && y + edge <= usize::from(size.height);
        if in_line && inside {
            Some(Tile { size, x, y, edge })
        } else {
            None
        }
    }

    // The number of its samples.
    pub fn area(self) -> usize
        ensures value { result ≡ self.edge * self.edge }
        ensures bound { result ≤ 256 }
    {
        self.edge * self.edge
    }
}
