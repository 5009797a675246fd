// The samples of a tile, row by row over the tile, in memory that is lent, and the arithmetic on them.
ghost use Rattle.std.specs.Prelude.{◌≡◌, ℕ, ◌*◌, ◌/◌, ◌%◌, ◌<◌, length, map, pos, ◌+ℤ◌, slice_index};
ghost use Rattle.std.specs.List.{range_with_len};
ghost use Rattle.kinds.specs.Meaning.{Differences};
ghost use Rattle.ends.specs.Tiles.{residual as residual_of, clip as clip_of, reconstructed};

// The number of samples of the largest tile, and so the length of memory that is lent.
pub const LARGEST: usize = 256;

#[derive(Drop)]
pub struct Samples<'a> {
    pub values: &'a mut [u8],
    pub edge: usize,
    ghost square: { length values.now ≡ edge * edge },
    ghost some: { 0 < edge },
}

impl Samples<'_> {
    pub fn as_slice(&self) -> &[u8]
        ensures { result.now ≡ self.now.values.now }
    {
        self.values
    }

    // Has each row written, by its number.
    pub fn write_rows<F: Fn(usize, &mut [u8])>(&mut self, write: F)
        ghost value: { ℕ → ℕ → ℕ }
        requires callable { (i : ℕ) (row : _) → i < self.old.edge → length row.now ≡ self.old.edge → F.pre write i row }
        requires written { (i : ℕ) (row : _) (row' : _) → i < self.old.edge → length row.now ≡ self.old.edge → length row'.now ≡ self.old.edge → F.post write i row tt row' → (j : ℕ) → j < self.old.edge → slice_index row'.now j ≡ value j i }
        ensures values { self.new.values.now ≡ map (λ k. value (k % self.old.edge) (k / self.old.edge)) (range_with_len 0 (self.old.edge * self.old.edge)) }
        ensures edge { self.new.edge ≡ self.old.edge }
    {
        let edge = self.edge;
        let values = &mut *self.values;
        // By number: within a loop over chunks_exact_mut the check does not cover the call, and after one it knows no sample.
        for i in 0..edge {
            write(i, &mut values[i * edge..i * edge + edge]);
        }
    }

    // Adds a reconstructed residual to the prediction: these become the new samples.
    pub fn add(&mut self, residual: &[i16])
        requires { length residual.now ≡ length self.old.values.now }
        ensures values { self.new.values.now ≡ reconstructed self.old.values.now residual.now }
        ensures edge { self.new.edge ≡ self.old.edge }
    {
        let values = &mut *self.values;
        // The residual by number: after a loop over a zip with iter_mut the check knows no sample.
        for (k, value) in values.iter_mut().enumerate() {
            *value = clip(*value, residual[k]);
        }
    }
}

// The source less its prediction.
pub fn subtract(source: &[u8], prediction: &[u8], residual: &mut [i16])
    requires source { length source.now ≡ length prediction.now }
    requires residual { length residual.old ≡ length prediction.now }
    ensures value { residual.new ≡ residual_of source.now prediction.now }
    ensures narrow { Differences residual.new }
{
    // Both by number, as in `add`.
    for (k, difference) in residual.iter_mut().enumerate() {
        *difference = i16::from(source[k]) - i16::from(prediction[k]);
    }
}

// A new sample: prediction plus reconstructed residual, held to 0..255.
fn clip(prediction: u8, residual: i16) -> u8
    ensures { result ≡ clip_of (pos prediction +ℤ residual) }
{
    i16::from(prediction).saturating_add(residual).clamp(0, 255) as u8
}
