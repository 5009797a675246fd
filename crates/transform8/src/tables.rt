// The tables, by QP mod 6, and the classes of their entries: an index of row or column is A where 4 divides it, B where
// it is odd, else C, and a place has the class AA, BB, CC, AB, AC or BC.
ghost use Rattle.std.specs.Prelude.{◌≡◌, ◌+◌, ◌*◌, ◌/◌, ◌%◌, ◌^◌, ◌≤◌, [], slice_index, slice_index_or};
ghost use Rattle.laws.specs.Blocks.{from};
ghost use Rattle.laws.specs.Eight.{v8, multipliers8, factors8};
ghost use Rattle.transform8.specs.Inner.{pattern, Below6, step as step_of};

use kinds::Qp;

const MULTIPLIERS: [[u32; 6]; 6] = [
    [13107, 11428, 20972, 12222, 16777, 15481],
    [11916, 10826, 19174, 11058, 14980, 14290],
    [10082, 8943, 15978, 9675, 12710, 11985],
    [9362, 8228, 14913, 8931, 11984, 11259],
    [8192, 7346, 13159, 7740, 10486, 9777],
    [7282, 6428, 11570, 6830, 9118, 8640],
];

const FACTORS: [[u32; 6]; 6] = [
    [20, 18, 32, 19, 25, 24],
    [22, 19, 35, 21, 28, 26],
    [26, 23, 42, 24, 33, 31],
    [28, 25, 45, 26, 35, 33],
    [32, 28, 51, 30, 40, 38],
    [36, 32, 58, 34, 46, 43],
];

// One line over each table, in both transforms: a common one would have to be handed the table and its definition.
pub fn multiplier_row(qp: Qp) -> [u32; 6]
    ensures value { result ≡ slice_index_or multipliers8 (qp % 6) [] }
    ensures small { Below6 20972 result }
{
    MULTIPLIERS[qp.row()]
}

pub fn factor_row(qp: Qp) -> [u32; 6]
    ensures value { result ≡ slice_index_or factors8 (qp % 6) [] }
    ensures small { Below6 58 result }
{
    FACTORS[qp.row()]
}

// 16 times the factors, doubled once for each six of QP beyond 36.
pub fn steps(qp: Qp) -> [u32; 6]
    ensures value { result ≡ from (λ class. step_of (v8 (qp % 6) class) (qp / 6)) 0 6 }
    ensures small { Below6 3712 result }
{
    let [aa, bb, cc, ab, ac, bc] = factor_row(qp);
    let k = qp.doublings();
    [
        step(aa, k),
        step(bb, k),
        step(cc, k),
        step(ab, k),
        step(ac, k),
        step(bc, k),
    ]
}

fn step(factor: u32, k: u32) -> u32
    requires factor { factor ≤ 58 }
    requires k { k ≤ 8 }
    ensures value { result ≡ step_of factor k }
    ensures small { result ≤ 3712 }
{
    (16 * factor) << k.saturating_sub(6)
}

// The factors, weighed by how much of each class there is in a sample.
pub fn weighed_factors(qp: Qp) -> u32
    ensures value { result ≡ 256 * v8 (qp % 6) 0 + 961 * v8 (qp % 6) 1 + 144 * v8 (qp % 6) 2 + 992 * v8 (qp % 6) 3 + 384 * v8 (qp % 6) 4 + 744 * v8 (qp % 6) 5 }
    ensures small { result ≤ 201898 }
{
    let [aa, bb, cc, ab, ac, bc] = factor_row(qp);
    256 * aa + 961 * bb + 144 * cc + 992 * ab + 384 * ac + 744 * bc
}

// Half of 2^shift, which is none where nothing is shifted out.
pub fn half_of(shift: u32) -> u32
    requires { shift ≤ 6 }
    ensures value { result ≡ 2 ^ shift / 2 }
    ensures small { result ≤ 32 }
{
    (1 << shift) / 2
}

// Numbers by class, as a pattern by place.
pub fn pattern(classes: [u32; 6]) -> [[u32; 4]; 4]
    ensures { result ≡ pattern (slice_index classes 0) (slice_index classes 1) (slice_index classes 2) (slice_index classes 3) (slice_index classes 4) (slice_index classes 5) }
{
    let [aa, bb, cc, ab, ac, bc] = classes;
    let a = [aa, ab, ac, ab];
    let b = [ab, bb, bc, bb];
    let c = [ac, bc, cc, bc];
    [a, b, c, b]
}
