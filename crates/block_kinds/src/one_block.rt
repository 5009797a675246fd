// The transforms that make a kind of one block, each with the tag of its kind.
ghost use Rattle.std.specs.Prelude.{◌≡◌, ℕ, ◌≤◌, ◌⊎◌, refl};
ghost use Rattle.std.proofs.Common.{lit≤, inl, inr};

use transform::Transform;
use transform4::Four;
use transform8::Eight;

pub trait OneBlock<const N: usize>: Transform<N> {
    ghost TAG: { ℕ };

    const TAG: u8;

    ghost tag_low: { 1 ≤ TAG };

    ghost tag_high: { TAG ≤ 63 };

    ghost edges: { (N ≡ 4) ⊎ ((N ≡ 8) ⊎ (N ≡ 16)) };
}

impl OneBlock<4> for Four {
    ghost TAG = { 1 };

    const TAG: u8 = 1;

    ghost tag_low = { lit≤ tt };

    ghost tag_high = { lit≤ tt };

    ghost edges = { inl refl };
}

impl OneBlock<8> for Eight {
    ghost TAG = { 2 };

    const TAG: u8 = 2;

    ghost tag_low = { lit≤ tt };

    ghost tag_high = { lit≤ tt };

    ghost edges = { inr (inl refl) };
}
