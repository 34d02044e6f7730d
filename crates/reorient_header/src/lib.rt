// The record of a turned file (02-change-requests.md, P10): dims, pixdims and the sform's rows as the new axes have them, and
// qform_code, dim_info and slice_code 0.
#![tactic(auto)]

ghost use Rattle.std.specs.Prelude.{◌≡◌, true, false};
ghost use Rattle.reorient.specs.Reorient.{is_permutation};
ghost use Rattle.reorient_header.specs.After.{dims_after, pixdims_after, length_in, rows_after, finite_rows_after};
ghost use Rattle.reorient_header.specs.After.{key_after, scale_after, quatern_after, not_finite, sform_after, header_after};

use header::{Header, Key, Quatern, Rows, Scale};
use reorient::Turn;

fn dims_after(dim: [i16; 8], t: Turn) -> [i16; 8]
    requires { is_permutation t ≡ true }
    ensures { result ≡ dims_after t dim }
{
    let i = t.axis1;
    let j = t.axis2;
    let k = t.axis3;
    [
        dim[0], dim[i], dim[j], dim[k], dim[4], dim[5], dim[6], dim[7],
    ]
}

fn pixdims_after(pixdim: [u32; 8], t: Turn) -> [u32; 8]
    requires { is_permutation t ≡ true }
    ensures { result ≡ pixdims_after t pixdim }
{
    let first = t.axis1;
    let second = t.axis2;
    let third = t.axis3;
    [
        pixdim[0],
        pixdim[first],
        pixdim[second],
        pixdim[third],
        pixdim[4],
        pixdim[5],
        pixdim[6],
        pixdim[7],
    ]
}

// The length of an old axis.
fn length_in(dim: &[i16], axis: usize) -> u16
    ensures { result ≡ length_in dim.now axis }
{
    grid::axis_length(dim, axis) as u16
}

// Whether all twelve new numbers are finite.
fn stay_finite(rows: Rows, dim: [i16; 8], t: Turn) -> bool
    requires { is_permutation t ≡ true }
    ensures { result ≡ finite_rows_after t dim rows }
{
    let l = length_in(&dim, 1);
    let m = length_in(&dim, 2);
    let n = length_in(&dim, 3);
    let x = reorient_rows::stays_finite(rows.srow_x, t, l, m, n);
    let y = reorient_rows::stays_finite(rows.srow_y, t, l, m, n);
    let z = reorient_rows::stays_finite(rows.srow_z, t, l, m, n);
    x & (y & z)
}

fn rows_after(rows: Rows, dim: [i16; 8], t: Turn) -> Rows
    requires t_value { is_permutation t ≡ true }
    requires rows_value { finite_rows_after t dim rows ≡ true }
    ensures { result ≡ rows_after t dim rows }
{
    let l = length_in(&dim, 1);
    let m = length_in(&dim, 2);
    let n = length_in(&dim, 3);
    Rows {
        srow_x: reorient_rows::row_after(rows.srow_x, t, l, m, n),
        srow_y: reorient_rows::row_after(rows.srow_y, t, l, m, n),
        srow_z: reorient_rows::row_after(rows.srow_z, t, l, m, n),
        ..rows
    }
}

// Refusal 23: there is a sform, and a new number of it is not finite.
pub fn not_finite(header: Header, t: Turn) -> bool
    requires { is_permutation t ≡ true }
    ensures { result ≡ not_finite t header }
{
    if header.quatern.sform_code <= 0 {
        return false;
    }
    !stay_finite(header.rows, header.dim, t)
}

fn key_after(g: Key) -> Key
    ensures { result ≡ key_after g }
{
    Key { dim_info: 0, ..g }
}

fn scale_after(g: Scale, t: Turn) -> Scale
    requires { is_permutation t ≡ true }
    ensures { result ≡ scale_after t g }
{
    Scale {
        pixdim: pixdims_after(g.pixdim, t),
        slice_code: 0,
        ..g
    }
}

fn quatern_after(g: Quatern) -> Quatern
    ensures { result ≡ quatern_after g }
{
    Quatern { qform_code: 0, ..g }
}

// The rows, which stay as they are where there is no sform.
fn sform_after(header: Header, t: Turn) -> Rows
    requires t_value { is_permutation t ≡ true }
    requires header_value { not_finite t header ≡ false }
    ensures { result ≡ sform_after t header }
{
    if header.quatern.sform_code <= 0 {
        return header.rows;
    }
    rows_after(header.rows, header.dim, t)
}

// The whole record, with the sizes and the aligned fact as they were: no byte of the new header depends on them.
pub fn header_after(header: Header, t: Turn) -> Header
    requires t_value { is_permutation t ≡ true }
    requires header_value { not_finite t header ≡ false }
    ensures { result ≡ header_after t header }
{
    Header {
        dim: dims_after(header.dim, t),
        key: key_after(header.key),
        scale: scale_after(header.scale, t),
        quatern: quatern_after(header.quatern),
        rows: sform_after(header, t),
        ..header
    }
}
