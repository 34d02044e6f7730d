// A row of the sform under a turn of the volume (02-change-requests.md, P10), in binary32. The row comes and goes as the bit
// patterns of its numbers, as the header keeps them; an f32 is made only of a pattern that was seen to be finite.
#![tactic(auto)]

ghost use Rattle.std.specs.Prelude.{◌≡◌, true, ◌&&◌, [], ◌∷◌, ◌-◌, ◌≤◌};
ghost use Rattle.std.specs.Float.Ieee.Scale.{finite};
ghost use Rattle.reorient.specs.Reorient.{is_permutation};
ghost use Rattle.reorient_rows.specs.Rows.{shifted, facing, float_at, numbers_after, row_numbers, finite_after, row_after};
ghost use Rattle.affine.specs.Method.{finite_row};

use reorient::Turn;

// The numbers of a row: three columns and the shift.
#[derive(Clone, Copy)]
struct Numbers {
    first: f32,
    second: f32,
    third: f32,
    shift: f32,
}

// The shift after an old axis of n.
fn shifted_by(reversed: bool, n: u16, column: f32, shift: f32) -> f32
    ensures { result ≡ shifted reversed n column shift }
{
    if reversed {
        shift + column * (n.saturating_sub(1) as f32)
    } else {
        shift
    }
}

// The column after it.
fn facing_to(reversed: bool, column: f32) -> f32
    ensures { result ≡ facing reversed column }
{
    if reversed { -column } else { column }
}

// The column of the old axis that a new one shows.
fn column_of(axis: usize, a: f32, b: f32, c: f32, s: f32) -> f32
    requires le_axis { 1 ≤ axis }
    requires axis_bound { axis ≤ 3 }
    ensures { result ≡ float_at (a ∷ (b ∷ (c ∷ (s ∷ [])))) (axis - 1) }
{
    match axis {
        1 => a,
        2 => b,
        _ => c,
    }
}

// The new row's numbers, from the old ones and the lengths of the old axes 1 to 3.
fn new_numbers(t: Turn, l: u16, m: u16, n: u16, a: f32, b: f32, c: f32, s: f32) -> Numbers
    requires { is_permutation t ≡ true }
    ensures { (result.first ∷ (result.second ∷ (result.third ∷ (result.shift ∷ [])))) ≡ numbers_after t l m n a b c s }
{
    let s1 = shifted_by(t.reversed1, l, a, s);
    let s2 = shifted_by(t.reversed2, m, b, s1);
    let s3 = shifted_by(t.reversed3, n, c, s2);
    let x = facing_to(t.reversed1, a);
    let y = facing_to(t.reversed2, b);
    let z = facing_to(t.reversed3, c);
    Numbers {
        first: column_of(t.axis1, x, y, z, s3),
        second: column_of(t.axis2, x, y, z, s3),
        third: column_of(t.axis3, x, y, z, s3),
        shift: s3,
    }
}

// Whether the four are finite.
fn are_finite(v: Numbers) -> bool
    ensures { result ≡ (finite v.first && (finite v.second && (finite v.third && finite v.shift))) }
{
    affine::is_finite(v.first)
        && affine::is_finite(v.second)
        && affine::is_finite(v.third)
        && affine::is_finite(v.shift)
}

// The same of the numbers of a row, which are finite themselves.
fn numbers_of(row: [u32; 4], t: Turn, l: u16, m: u16, n: u16) -> Numbers
    requires t_value { is_permutation t ≡ true }
    requires row_value { finite_row row ≡ true }
    ensures { (result.first ∷ (result.second ∷ (result.third ∷ (result.shift ∷ [])))) ≡ row_numbers t l m n row }
{
    let a = f32::from_bits(row[0]);
    let b = f32::from_bits(row[1]);
    let c = f32::from_bits(row[2]);
    let s = f32::from_bits(row[3]);
    new_numbers(t, l, m, n, a, b, c, s)
}

// Whether the new row's numbers are finite; l, m and n are the lengths of the old axes 1 to 3.
pub fn stays_finite(row: [u32; 4], t: Turn, l: u16, m: u16, n: u16) -> bool
    requires { is_permutation t ≡ true }
    ensures { result ≡ finite_after t l m n row }
{
    affine::row_is_finite(row) && are_finite(numbers_of(row, t, l, m, n))
}

// The new row, where its numbers are finite.
pub fn row_after(row: [u32; 4], t: Turn, l: u16, m: u16, n: u16) -> [u32; 4]
    requires t_value { is_permutation t ≡ true }
    requires row_value { finite_after t l m n row ≡ true }
    ensures { result ≡ row_after t l m n row }
{
    let v = numbers_of(row, t, l, m, n);
    [
        f32::to_bits(v.first),
        f32::to_bits(v.second),
        f32::to_bits(v.third),
        f32::to_bits(v.shift),
    ]
}
