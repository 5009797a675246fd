// Rescaling: from levels to the coefficients that they stand for.
ghost use Rattle.std.specs.Prelude.{◌≡◌, ◌^◌, ◌<◌, ◌≤◌, pos, ◌+ℤ◌, ◌*ℤ◌};
ghost use Rattle.std.specs.Int.Signed.{shr_z};
ghost use Rattle.laws.specs.Blocks.{at, from};
ghost use Rattle.transform.specs.Pattern.{AtMost, stepped};

use std::array;

// What a level is multiplied by, what is then added, and by how many places the sum is shifted to the right.
#[derive(Drop)]
pub struct Rescaling {
    pub steps: [[u32; 4]; 4],
    pub half: u32,
    pub shift: u32,
    pub ghost steps_small: { AtMost 7424 steps },
    pub ghost half_small: { half ≤ 32 },
    pub ghost shift_small: { shift ≤ 6 },
}

impl Rescaling {
    // The rescaled levels of row i of a block. Beside Quantiser's `levels`: each is one line, over its own numbers.
    pub fn rescaled<const N: usize>(&self, line: &[i16; N], i: usize) -> [i32; N]
        requires { N ≤ 16 }
        ensures { result ≡ from (λ j. stepped self.now.steps self.now.half self.now.shift i j (at line.now j)) 0 N }
    {
        array::from_fn(
            |j|
                requires { j < N }
                ensures { result ≡ stepped self.entry.now.steps self.entry.now.half self.entry.now.shift i j (at line.entry.now j) }
            { self.number(line[j], self.steps[i % 4][j % 4]) },
        )
    }

    fn number(&self, level: i16, step: u32) -> i32
        requires { step ≤ 7424 }
        ensures { result ≡ shr_z (level *ℤ pos step +ℤ pos self.now.half) (2 ^ self.now.shift) }
    {
        (i32::from(level) * step as i32 + self.half as i32) >> self.shift
    }
}
