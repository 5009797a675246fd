// The steps of a block, for any transform: out to levels, and back to a residual.
ghost use Rattle.std.specs.Prelude.{◌≡◌, ◌<◌, ◌≤◌};
ghost use Rattle.laws.specs.Blocks.{from, row, cells, block};
ghost use Rattle.laws.specs.Quantiser.{quantised};
ghost use Rattle.laws.specs.Transform.{coefficients, levels, rescaled_block, inverse, reconstructed};
ghost use Rattle.transform.specs.Pattern.{pattern_at, stepped};
ghost use Rattle.transform.specs.Inner.{Room, Sized};

use crate::block::{LARGEST, LARGEST_COLUMN, held, rounded, transposed, widened};
use crate::quantiser::Quantiser;
use crate::transform::Transform;
use kinds::{Qp, Sort};
use laws::rounding;
use std::array;

// The coefficients C X Cᵀ of a residual.
pub fn forward_transform<T: Transform<N>, const N: usize>(residual: [[i16; N]; N]) -> [[i32; N]; N]
    ensures { result ≡ block N (coefficients T.transform (cells residual.entry)) }
{
    T::multiply_columns(T::multiply_columns(widened(residual)))
}

// The levels of coefficients.
pub fn quantise<T: Transform<N>, const N: usize>(
    coefficients: [[i32; N]; N],
    qp: Qp,
    sort: Sort,
) -> [[i16; N]; N]
    requires { Sized N T.most coefficients }
    ensures { result ≡ block N (levels T.transform qp sort (cells coefficients.entry)) }
{
    let shift = T::SHIFT + qp.doublings();
    let quantiser = Quantiser {
        multipliers: T::multipliers(qp),
        add: rounding(sort, shift),
        shift,
    };
    array::from_fn(
        |i|
            requires { (i < N) × (N ≤ 16) × Room N quantiser.multipliers quantiser.shift i (row coefficients i) }
            ensures { result ≡ from (λ j. quantised (cells coefficients i j) (pattern_at quantiser.multipliers i j) quantiser.add quantiser.shift) 0 N }
        { quantiser.levels(&coefficients[i], i) },
    )
}

// The rescaled levels, or a refusal where one leaves 16 bits.
pub fn rescale<T: Transform<N>, const N: usize>(
    levels: [[i16; N]; N],
    qp: Qp,
) -> Option<[[i16; N]; N]>
    ensures { result ≡ rescaled_block T.transform qp levels.entry }
{
    let rescaling = T::rescaling(qp);
    held(array::from_fn(
        |i|
            requires { (i < N) × (N ≤ 16) }
            ensures { result ≡ from (λ j. stepped rescaling.steps rescaling.half rescaling.shift i j (cells levels i j)) 0 N }
        { rescaling.rescaled(&levels[i], i) },
    ))
}

// The residual of rescaled levels, or a refusal where a number leaves its width.
pub fn inverse_transform<T: Transform<N>, const N: usize>(
    rescaled: [[i16; N]; N],
) -> Option<[[i16; N]; N]>
    ensures { result ≡ inverse T.transform rescaled.entry }
{
    let rows = T::pass_columns(transposed(rescaled), LARGEST)?;
    let columns = T::pass_columns(transposed(rows), LARGEST_COLUMN)?;
    Some(rounded(columns))
}

// The residual that levels stand for, or a refusal where a number leaves its width.
pub fn reconstruct<T: Transform<N>, const N: usize>(
    levels: [[i16; N]; N],
    qp: Qp,
) -> Option<[[i16; N]; N]>
    ensures { result ≡ reconstructed T.transform qp levels.entry }
{
    inverse_transform::<T, N>(rescale::<T, N>(levels, qp)?)
}
