// The position of a voxel by Method 3, in binary32: 01-scope.md, "Slices and positions", second
// paragraph. The rows come as the bit patterns of their numbers, as the header keeps them. An f32 is
// made only of a pattern that was seen to be finite.
#![tactic(auto)]

ghost use Rattle.std.specs.Prelude.{◌≡◌};
ghost use Rattle.std.specs.Float.{binary32};
ghost use Rattle.std.specs.Float.Ieee.{of_bits};
ghost use Rattle.std.specs.Float.Ieee.Scale.{finite};
ghost use Rattle.affine.specs.Method.{row_of, row_numbers, results_of, finite_results, finite_row, NoNan, position_of};

// A position: its three values together.
#[derive(Clone, Copy)]
pub struct Position {
    pub x: f32,
    pub y: f32,
    pub z: f32,
}

// The four numbers of a row, as of srow_x.
#[derive(Clone, Copy)]
pub struct RowNumbers {
    pub s0: f32,
    pub s1: f32,
    pub s2: f32,
    pub s3: f32,
}

// The twelve numbers of srow_x, srow_y and srow_z.
#[derive(Clone, Copy)]
pub struct Srow {
    pub x: RowNumbers,
    pub y: RowNumbers,
    pub z: RowNumbers,
}

// Whether x is neither a NaN nor an infinity.
pub fn is_finite(x: f32) -> bool
    ensures { result ≡ finite x }
{
    x.is_finite()
}

// The same of a bit pattern, by its exponent's field.
fn is_finite_pattern(bits: u32) -> bool
    ensures { result ≡ finite (of_bits binary32 bits) }
{
    bits / 0x80_0000 % 256 != 255
}

// Whether the four numbers of a row are finite.
pub fn row_is_finite(row: [u32; 4]) -> bool
    ensures { result ≡ finite_row row }
{
    is_finite_pattern(row[0])
        & is_finite_pattern(row[1])
        & is_finite_pattern(row[2])
        & is_finite_pattern(row[3])
}

impl RowNumbers {
    // Those of a row without a NaN.
    fn of_patterns(row: [u32; 4]) -> Self
        requires { NoNan row }
        ensures { result ≡ row_numbers row }
    {
        RowNumbers {
            s0: f32::from_bits(row[0]),
            s1: f32::from_bits(row[1]),
            s2: f32::from_bits(row[2]),
            s3: f32::from_bits(row[3]),
        }
    }

    // ((s0×i + s1×j) + s2×k) + s3, rounded after each operation.
    fn value_at(self, i: u16, j: u16, k: u16) -> f32
        ensures { result ≡ row_of self.s0 self.s1 self.s2 self.s3 i j k }
    {
        ((self.s0 * (i as f32) + self.s1 * (j as f32)) + self.s2 * (k as f32)) + self.s3
    }
}

impl Srow {
    // The three results together.
    fn results_at(self, i: u16, j: u16, k: u16) -> Position
        ensures { result ≡ results_of self i j k }
    {
        Position {
            x: self.x.value_at(i, j, k),
            y: self.y.value_at(i, j, k),
            z: self.z.value_at(i, j, k),
        }
    }
}

impl Position {
    // Whether its three values are finite.
    fn is_finite(self) -> bool
        ensures { result ≡ finite_results self }
    {
        is_finite(self.x) & is_finite(self.y) & is_finite(self.z)
    }
}

// The position of the voxel with the indexes i, j and k.
pub fn place(
    srow_x: [u32; 4],
    srow_y: [u32; 4],
    srow_z: [u32; 4],
    i: u16,
    j: u16,
    k: u16,
) -> Option<Position>
    ensures { result ≡ position_of srow_x srow_y srow_z i j k }
{
    if !(row_is_finite(srow_x) & row_is_finite(srow_y) & row_is_finite(srow_z)) {
        return None;
    }
    let srow = Srow {
        x: RowNumbers::of_patterns(srow_x),
        y: RowNumbers::of_patterns(srow_y),
        z: RowNumbers::of_patterns(srow_z),
    };
    let p = srow.results_at(i, j, k);
    p.is_finite().then_some(p)
}
