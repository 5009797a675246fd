// Blocks of N by N numbers, as arrays of rows by value, and tiles in memory that hold one row by row.
// Lines are made by the array's own `map` or `from_fn`, and blocks from blocks by `map`, but for `rounded`, whose line says why,
// and `transposed`, which reads columns. That N is small stands in each contract: a bound could carry it, as the trait
// Transform's `small` does, but would need a type parameter that no argument fixes.
ghost use Rattle.std.specs.Prelude.{◌≡◌, ℕ, ◌+◌, ◌*◌, ◌<◌, ◌≤◌, length, pos, ◌+ℤ◌, FitsSigned, unsigned_abs};
ghost use Rattle.std.specs.Int.{w16};
ghost use Rattle.std.specs.Int.Signed.{shr_z};
ghost use Rattle.laws.specs.Blocks.{at, from, row, cells, block, tile as tile_of, row_by_row};
ghost use Rattle.laws.specs.Widths.{largest, within as is_within, fits as line_fits, every, held as held_line, all};
ghost use Rattle.transform.specs.Columns.{cell_or, column_or};
ghost use Rattle.transform.specs.Inner.{Sized, SizedLine, Short, ShortLine};

use std::array;

// The largest number of 16 bits, and the largest result of a column, to which the last rounding adds 32.
pub const LARGEST: i32 = 32767;

pub const LARGEST_COLUMN: i32 = 32735;

// A block of 16 bits in 32 bits.
pub fn widened<const N: usize>(m: [[i16; N]; N]) -> [[i32; N]; N]
    requires { N ≤ 16 }
    ensures value { result ≡ block N (cells m.entry) }
    ensures size { Sized N 32768 result }
{
    m.map(wide)
}

fn wide<const N: usize>(line: [i16; N]) -> [i32; N]
    requires { N ≤ 16 }
    ensures value { result ≡ from (at line.entry) 0 N }
    ensures size { SizedLine N 32768 result }
{
    line.map(widen)
}

fn widen(x: i16) -> i32
    ensures value { result ≡ x }
    ensures size { unsigned_abs result ≤ 32768 }
{
    i32::from(x)
}

// (h + 32) >> 6, of each number. Not by `map`: with it, a block of 8 by 8 takes 9 in 100 instructions more to reconstruct.
pub fn rounded<const N: usize>(m: [[i16; N]; N]) -> [[i16; N]; N]
    requires { N ≤ 16 }
    ensures { result ≡ block N (λ i j. shr_z (cells m.entry i j +ℤ pos 32) 64) }
{
    array::from_fn(
        |i|
            requires { (i < N) × (N ≤ 16) }
            ensures { result ≡ from (λ j. shr_z (cells m i j +ℤ pos 32) 64) 0 N }
        { round_line(m[i]) },
    )
}

fn round_line<const N: usize>(line: [i16; N]) -> [i16; N]
    requires { N ≤ 16 }
    ensures { result ≡ from (λ j. shr_z (at line.entry j +ℤ pos 32) 64) 0 N }
{
    line.map(round)
}

fn round(h: i16) -> i16
    ensures { result ≡ shr_z (h +ℤ pos 32) 64 }
{
    ((i32::from(h) + 32) >> 6) as i16
}

// A block in 16 bits, or a refusal where a number leaves them.
pub fn held<const N: usize>(m: [[i32; N]; N]) -> Option<[[i16; N]; N]>
    requires { N ≤ 16 }
    ensures { result ≡ all (from (λ i. held_line N largest (row m.entry i)) 0 N) }
{
    if block_fits(&m, LARGEST) {
        Some(shortened(m))
    } else {
        None
    }
}

// Whether each number lies in -32768..most. It looks at all of them: a test with no exit is quicker. Both tests are inlined:
// in a pass they then stay in its vectors. A loop each, as Exact has one: a closure for the test of one element would bring
// a clause as long as the loop.
#[inline(always)]
pub fn block_fits<const N: usize>(m: &[[i32; N]; N], most: i32) -> bool
    ensures { result ≡ every (λ i. line_fits N most (row m.now i)) 0 N }
{
    let mut fits = true;
    for line in m {
        fits &= line_fits(line, most);
    }
    fits
}

#[inline(always)]
fn line_fits<const N: usize>(line: &[i32; N], most: i32) -> bool
    ensures { result ≡ line_fits N most line.now }
{
    let mut fits = true;
    for x in line {
        fits &= within(*x, most);
    }
    fits
}

// Beside Exact's test of a level: that one is of 16 bits, and its range has two ends of its own.
fn within(x: i32, most: i32) -> bool
    ensures { result ≡ is_within most x }
{
    -32768 <= x && x <= most
}

// A block that has 16 bits, in 16 bits.
pub fn shortened<const N: usize>(m: [[i32; N]; N]) -> [[i16; N]; N]
    requires small { N ≤ 16 }
    requires short { Short N m }
    ensures { result ≡ block N (cells m.entry) }
{
    m.map(short)
}

fn short<const N: usize>(line: [i32; N]) -> [i16; N]
    requires small { N ≤ 16 }
    requires short { ShortLine N line }
    ensures { result ≡ from (at line.entry) 0 N }
{
    array::from_fn(
        |j|
            requires { (j < N) × FitsSigned w16 (at line j) }
            ensures { result ≡ at line j }
        { line[j] as i16 },
    )
}

// Rows and columns exchanged.
pub fn transposed<T: Copy, const N: usize>(m: [[T; N]; N]) -> [[T; N]; N]
    requires { N ≤ 16 }
    ensures { (d : T) → result ≡ from (column_or d N m) 0 N }
{
    array::from_fn(
        |j|
            requires { (j < N) × (N ≤ 16) }
            ensures { (d : T) → result ≡ column_or d N m j }
        { column(&m, j) },
    )
}

// Column j. The block is lent: a copy of it for each column costs six times as much.
pub fn column<T: Copy, const N: usize>(m: &[[T; N]; N], j: usize) -> [T; N]
    requires { (j < N) × (N ≤ 16) }
    ensures { (d : T) → result ≡ column_or d N m.now j }
{
    array::from_fn(
        |i|
            requires { (i < N) × (j < N) }
            ensures { (d : T) → result ≡ cell_or d m.entry.now i j }
        { m[i][j] },
    )
}

// A tile as a block. That a tile has N * N numbers stands in each contract: no array type has that length.
pub fn read<const N: usize>(tile: &[i16]) -> [[i16; N]; N]
    requires small { N ≤ 16 }
    requires length { length tile.now ≡ N * N }
    ensures { result ≡ block N (tile_of N tile.now) }
{
    array::from_fn(
        |i|
            requires { (i < N) × (N ≤ 16) × (length tile.now ≡ N * N) }
            ensures { result ≡ from (tile_of N tile.entry.now i) 0 N }
        { read_line(tile, i) },
    )
}

fn read_line<const N: usize>(tile: &[i16], i: usize) -> [i16; N]
    requires small { N ≤ 16 }
    requires line { i < N }
    requires length { length tile.now ≡ N * N }
    ensures { result ≡ from (tile_of N tile.now i) 0 N }
{
    array::from_fn(
        |j|
            requires { (i < N) × (j < N) × (N ≤ 16) × (length tile.now ≡ N * N) }
            ensures { result ≡ tile_of N tile.entry.now i j }
        { tile[N * i + j] },
    )
}

// A block as a tile. Inlined: with its size known it is a few moves of vectors.
#[inline(always)]
pub fn write<const N: usize>(m: &[[i16; N]; N], tile: &mut [i16])
    requires small { N ≤ 16 }
    requires length { length tile.old ≡ N * N }
    ensures { tile.new ≡ row_by_row N (cells m.now) }
{
    // The tile by number: after a loop over chunks_exact_mut the check knows no element, and of m as one slice no row's length.
    for (i, line) in m.iter().enumerate() {
        write_line(line, tile, i);
    }
}

fn write_line<const N: usize>(line: &[i16; N], tile: &mut [i16], i: usize)
    requires small { N ≤ 16 }
    requires length { length tile.old ≡ N * N }
    requires line { i < N }
    ensures here { (j : ℕ) → j < N → at tile.new (N * i + j) ≡ at line.now j }
    ensures before { (k : ℕ) → k < N * i → at tile.new k ≡ at tile.old k }
{
    tile[N * i..N * i + N].copy_from_slice(line);
}
