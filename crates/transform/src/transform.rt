// What a transform of N by N points has to give, so that the steps of a block can be written once for all of them.
ghost use Rattle.std.specs.Prelude.{◌≡◌, ℕ, ◌+◌, ◌*◌, ◌/◌, ◌%◌, ◌^◌, ◌<◌, ◌≤◌, List, Some, ℤ, pos, ◌*ℤ◌, ◌-ℤ◌, ◌≤ℤ◌, unsigned_abs};
ghost use Rattle.kinds.specs.declared.kind.Sort.{Sort};
ghost use Rattle.laws.specs.Blocks.{Grid, at, from, cells, block};
ghost use Rattle.laws.specs.Widths.{largest};
ghost use Rattle.laws.specs.Transform.{Transform, class_at, half_product, coefficients, levels, reconstructed};
ghost use Rattle.transform.specs.Pattern.{pattern_at, AtMost, stepped};
ghost use Rattle.transform.specs.Passes.{products, passed};
ghost use Rattle.transform.specs.Inner.{Sized};

use crate::rescaling::Rescaling;
use kinds::{Qp, Sort};

pub trait Transform<const N: usize> {
    // what the transform is, and how far a sample of a block may come back from the one that was coded
    ghost transform: { Transform };

    ghost limit: { ℕ → Sort → ℕ };

    // no coefficient of a residual is larger
    ghost most: { ℕ };

    ghost SHIFT: { ℕ };

    // The quantiser's shift for QP 0 to 5.
    const SHIFT: u32;

    // The quantiser's multipliers.
    fn multipliers(qp: Qp) -> [[u32; 4]; 4]
        ensures value { (i j : ℕ) → i < N → j < N → pattern_at result i j ≡ transform.multiplier (qp % 6) (class_at transform i j) }
        ensures small { AtMost 32768 result }
        ensures room { (i j : ℕ) → most * pattern_at result i j < 2 ^ (SHIFT + 14) };

    fn rescaling(qp: Qp) -> Rescaling
        ensures value { (i j : ℕ) (level : ℤ) → i < N → j < N → stepped result.steps result.half result.shift i j level ≡ transform.rescale (qp / 6) (level *ℤ pos (transform.factor (qp % 6) (class_at transform i j))) };

    // C times each column, as a row.
    fn multiply_columns(x: [[i32; N]; N]) -> [[i32; N]; N]
        requires { Sized N 2097152 x }
        ensures { result ≡ products transform x.entry };

    // Every column passed, in its place. `bound` is the largest result allowed. That it has 16 bits stands in the clause: a type
    // round it would be taken off at once.
    fn pass_columns(m: [[i16; N]; N], bound: i32) -> Option<[[i16; N]; N]>
        requires { bound ≤ℤ largest }
        ensures { result ≡ passed transform bound m.entry };

    // How far a sample of a block may come back from the one that was coded.
    // Each transform writes its own: they differ in the weights, their number and two constants.
    fn distance(qp: Qp, sort: Sort) -> u32
        ensures { result ≡ limit qp sort };

    ghost small: { N ≤ 16 };

    ghost points: { transform.points ≡ N };

    // a pass reads the N numbers of its line, and no more
    ghost reads: { (most : ℤ) (line : List ℤ) → transform.pass most (from (at line) 0 N) ≡ transform.pass most line };

    ghost shift: { transform.shift ≡ SHIFT };

    ghost shift_small: { SHIFT ≤ 22 };

    ghost products_small: { (x : Grid) → ((i j : ℕ) → i < N → j < N → unsigned_abs (x i j) ≤ 32768) → (i j : ℕ) → i < N → j < N → unsigned_abs (half_product transform x i j) ≤ 2097152 };

    ghost coefficients_small: { (x : Grid) → ((i j : ℕ) → i < N → j < N → unsigned_abs (x i j) ≤ 255) → (i j : ℕ) → i < N → j < N → unsigned_abs (coefficients transform x i j) ≤ most };

    ghost near: { (qp : ℕ) (sort : Sort) (x : Grid) (r : List (List ℤ)) → qp ≤ 51 → ((i j : ℕ) → i < N → j < N → unsigned_abs (x i j) ≤ 255) → reconstructed transform qp (block N (levels transform qp sort (coefficients transform x))) ≡ Some r → (i j : ℕ) → i < N → j < N → unsigned_abs (cells r i j -ℤ x i j) ≤ limit qp sort };
}
