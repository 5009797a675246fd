// The prediction of a tile from its plane, by one of four modes.
ghost use Rattle.std.specs.Prelude.{◌≡◌, ◌*◌, ◌<◌, ◌≤◌};
ghost use Rattle.ends.specs.Tasks.{Bordered};
ghost use Rattle.ends.specs.Tiles.{above, left, mean as mean_of, prediction};

use crate::mode::Mode;
use crate::samples::{LARGEST, Samples};
use crate::window::Window;

impl Window<'_> {
    // What a mode predicts for the tile, in memory for the largest.
    #[tactic(auto, unfolding(crate::specs::Tiles::prediction))]
    pub fn predict<'m>(&self, mode: Mode, memory: &'m mut [u8; LARGEST]) -> Samples<'m>
        requires { Bordered self.now.tile mode }
        ensures values { result.values.now ≡ prediction mode self.now.tile self.now.plane.now }
        ensures edge { result.edge ≡ self.now.tile.edge }
    {
        let tile = self.tile;
        let mut samples = Samples {
            values: &mut memory[..tile.area()],
            edge: tile.edge,
        };
        match mode {
            Mode::Colocated => samples.write_rows(move |i, row| {
                row.copy_from_slice(self.row(tile.x, tile.y + i))
            }),
            Mode::Vertical => samples.write_rows(move |_, row| {
                row.copy_from_slice(self.row(tile.x, tile.y - 1))
            }),
            Mode::Horizontal => samples.write_rows(move |i, row| {
                row.fill(self.sample(tile.x - 1, tile.y + i))
            }),
            Mode::Mean => {
                let mean = self.mean();
                samples.write_rows(move |_, row| row.fill(mean))
            }
        }
        samples
    }

    // The mean of the samples above and left of the tile, as far as there are any.
    fn mean(&self) -> u8
        ensures { result ≡ mean_of self.now.tile self.now.plane.now }
    {
        let tile = self.tile;
        let n = tile.edge;
        let mean = match (tile.y > 0, tile.x > 0) {
            (false, false) => 128,
            (false, true) => (self.sum_left() + n / 2) / n,
            (true, false) => (self.sum_above() + n / 2) / n,
            (true, true) => (self.sum_above() + self.sum_left() + n) / (2 * n),
        };
        mean as u8
    }

    // The sum of the samples just above the tile.
    fn sum_above(&self) -> usize
        requires { 0 < self.now.tile.y }
        ensures value { result ≡ above self.now.tile self.now.plane.now }
        ensures bound { result ≤ 255 * self.now.tile.edge }
    {
        let tile = self.tile;
        let above = self.row(tile.x, tile.y - 1);
        above.iter().map(|sample| usize::from(*sample)).sum()
    }

    // The sum of the samples just left of the tile. Beside `sum_above`, which reads a slice: a column is none.
    fn sum_left(&self) -> usize
        requires { 0 < self.now.tile.x }
        ensures value { result ≡ left self.now.tile self.now.plane.now }
        ensures bound { result ≤ 255 * self.now.tile.edge }
    {
        let tile = self.tile;
        (0..tile.edge)
            .map(move |i| usize::from(self.sample(tile.x - 1, tile.y + i)))
            .sum()
    }
}
