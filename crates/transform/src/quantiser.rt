// The quantiser: from coefficients to levels.
ghost use Rattle.std.specs.Prelude.{◌≡◌, ◌+◌, ◌*◌, ◌/◌, ◌^◌, ◌<◌, ◌≤◌, pos, unsigned_abs};
ghost use Rattle.laws.specs.Blocks.{at, from};
ghost use Rattle.laws.specs.Quantiser.{quantised};
ghost use Rattle.transform.specs.Pattern.{pattern_at, AtMost};
ghost use Rattle.transform.specs.Inner.{Room};

use std::array;

// What a coefficient is multiplied by, what is then added, and by how many places the sum is shifted.
#[derive(Drop)]
pub struct Quantiser {
    pub multipliers: [[u32; 4]; 4],
    pub add: u32,
    pub shift: u32,
    pub ghost multipliers_small: { AtMost 32768 multipliers },
    pub ghost add_small: { 3 * add ≤ 2 ^ shift },
    pub ghost shift_small: { shift ≤ 30 },
}

impl Quantiser {
    // The levels of row i of a block. Beside Rescaling's `rescaled`: each is one line, over its own numbers.
    pub fn levels<const N: usize>(&self, line: &[i32; N], i: usize) -> [i16; N]
        requires small { N ≤ 16 }
        requires room { Room N self.now.multipliers self.now.shift i line.now }
        ensures { result ≡ from (λ j. quantised (at line.now j) (pattern_at self.now.multipliers i j) self.now.add self.now.shift) 0 N }
    {
        array::from_fn(
            |j|
                requires { (j < N) × Room N self.now.multipliers self.now.shift i line.now }
                ensures { result ≡ quantised (at line.entry.now j) (pattern_at self.entry.now.multipliers i j) self.entry.now.add self.entry.now.shift }
            { self.level(line[j], self.multipliers[i % 4][j % 4]) },
        )
    }

    // The size is shifted and the sign put back: a shift of a negative product would round away from zero.
    fn level(&self, coefficient: i32, multiplier: u32) -> i16
        requires small { multiplier ≤ 32768 }
        requires room { unsigned_abs coefficient * multiplier < 2 ^ (self.now.shift + 14) }
        ensures { result ≡ quantised coefficient multiplier self.now.add self.now.shift }
    {
        let size = self.size(coefficient.unsigned_abs(), multiplier);
        if coefficient < 0 { -size } else { size }
    }

    // A product may leave 32 bits.
    fn size(&self, coefficient: u32, multiplier: u32) -> i16
        requires small { multiplier ≤ 32768 }
        requires room { coefficient * multiplier < 2 ^ (self.now.shift + 14) }
        ensures { result ≡ pos ((coefficient * multiplier + self.now.add) / 2 ^ self.now.shift) }
    {
        ((u64::from(coefficient) * u64::from(multiplier) + u64::from(self.add))
            >> self.shift) as i16
    }
}
