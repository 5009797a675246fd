// A tile in its plane, which is lent. Nothing else in this crate knows how the samples of a plane are laid out.
ghost use Rattle.std.specs.Prelude.{◌≡◌, ℕ, ◌+◌, ◌*◌, ◌<◌, ◌≤◌, length, slice_index};
ghost use Rattle.ends.specs.Planes.{bytes, sample};
ghost use Rattle.ends.specs.Tiles.{with_tile, reconstructed};

use crate::samples::Samples;
use crate::tile::Tile;

#[derive(Drop)]
pub struct Window<'a> {
    pub plane: &'a mut [u8],
    pub tile: Tile,
    ghost whole: { length plane.now ≡ bytes tile.size },
}

impl Window<'_> {
    // The samples from (x, y) on, to the right, as many as the edge.
    pub fn row(&self, x: usize, y: usize) -> &[u8]
        requires right { x + self.now.tile.edge ≤ self.now.tile.size.width }
        requires bottom { y < self.now.tile.size.height }
        ensures long { length result.now ≡ self.now.tile.edge }
        ensures samples { (j : ℕ) → j < self.now.tile.edge → slice_index result.now j ≡ sample self.now.tile.size self.now.plane.now (x + j) y }
    {
        let tile = self.tile;
        let first = y * usize::from(tile.size.width) + x;
        &self.plane[first..first + tile.edge]
    }

    pub fn sample(&self, x: usize, y: usize) -> u8
        requires right { x < self.now.tile.size.width }
        requires bottom { y < self.now.tile.size.height }
        ensures { result ≡ sample self.now.tile.size self.now.plane.now x y }
    {
        let tile = self.tile;
        self.plane[y * usize::from(tile.size.width) + x]
    }

    // Stores the prediction with its reconstructed residual added.
    pub fn reconstruct(&mut self, prediction: &mut Samples, residual: &[i16])
        requires edge { prediction.old.edge ≡ self.old.tile.edge }
        requires residual { length residual.now ≡ length prediction.old.values.now }
        ensures same_reference { self.new.plane.ghost_name ≡ self.old.plane.ghost_name }
        ensures plane { self.new.plane.now ≡ with_tile self.old.tile (reconstructed prediction.old.values.now residual.now) self.old.plane.now }
    {
        prediction.add(residual);
        self.store(prediction.as_slice());
    }

    fn store(&mut self, samples: &[u8])
        requires { length samples.now ≡ self.old.tile.edge * self.old.tile.edge }
        ensures same_reference { self.new.plane.ghost_name ≡ self.old.plane.ghost_name }
        ensures plane { self.new.plane.now ≡ with_tile self.old.tile samples.now self.old.plane.now }
    {
        let tile = self.tile;
        let plane = &mut *self.plane;
        // The plane by number: its rows are longer than the tile's, and begin elsewhere.
        for (i, row) in samples.chunks_exact(tile.edge).enumerate() {
            let first = (tile.y + i) * usize::from(tile.size.width) + tile.x;
            plane[first..first + tile.edge].copy_from_slice(row);
        }
    }
}
