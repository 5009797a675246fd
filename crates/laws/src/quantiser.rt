// What the quantiser takes from the sort of a prediction.
ghost use Rattle.std.specs.Prelude.{◌≡◌, ◌*◌, ◌^◌, ◌≤◌};
ghost use Rattle.laws.specs.Quantiser.{rounding as rounding_of, error_sixths};

use kinds::Sort;

// What is added before a shift: a third of the divisor 2^shift for intra, a sixth for inter.
pub fn rounding(sort: Sort, shift: u32) -> u32
    requires { shift ≤ 30 }
    ensures value { result ≡ rounding_of sort (2 ^ shift) }
    ensures third { 3 * result ≤ 2 ^ shift }
{
    match sort {
        Sort::Intra => (1 << shift) / 3,
        Sort::Inter => (1 << shift) / 6,
    }
}

// The quantiser's largest error, in sixths of a level.
pub fn error_sixths(sort: Sort) -> u32
    ensures value { result ≡ error_sixths sort }
    ensures small { result ≤ 5 }
{
    match sort {
        Sort::Intra => 4,
        Sort::Inter => 5,
    }
}
