// Turns the file that is on standard input, as `turn::turn` does, by all six orders of the axes, by a reversal of each axis and of
// all three, and by turns that are refused (02-change-requests.md, P10). Printed are the bytes of the fields that a turn changes,
// and all bytes behind the header. What is to be printed stands in the file stdout.
//
// Standard input is a single file of 2 × 3 × 2 one-byte voxels with the values 0 to 11, an extension before them and three bytes
// behind them; pixdims 1, 2 and 3; rows 2 0 0 10, 0 3 0 -20 and 0 0 4 30; dim_info 57, slice_code 3 and qform_code 1. It is made
// in tests/ by
//   python3 -c 'import struct, sys; from nifti import *; h = bytearray(header(dim=(3, 2, 3, 2), datatype=2, bitpix=8, offset=368.0));
//       h[39] = 57; h[122] = 3; struct.pack_into("<4f", h, 76, 1, 1, 2, 3); struct.pack_into("<2h", h, 252, 1, 1);
//       struct.pack_into("<12f", h, 280, 2, 0, 0, 10, 0, 3, 0, -20, 0, 0, 4, 30);
//       sys.stdout.buffer.write(h + SOME + extension() + bytes(range(12)) + bytes([200, 201, 202]))' > ../crates/turn_table/stdin
#![tactic(auto)]

use std::io;

fn print_bytes(rt: &impl Print, name: &str, part: &[u8]) -> io::Result<()> {
    print!(rt; "{name}")?;
    for b in part {
        print!(rt; " {b}")?;
    }
    println!(rt;)
}

// The new file is as long as the old one, which `n` says.
fn print_file(rt: &impl Print, out: &[u8], n: usize) -> io::Result<()> {
    if out.len() < n || n < 348 {
        return Ok(());
    }
    print_bytes(rt, "dims", &out[42..48])?;
    print_bytes(rt, "pixdims", &out[80..92])?;
    print_bytes(rt, "srow_x", &out[280..296])?;
    print_bytes(rt, "srow_y", &out[296..312])?;
    print_bytes(rt, "srow_z", &out[312..328])?;
    print_bytes(rt, "dim_info", &out[39..40])?;
    print_bytes(rt, "slice_code", &out[122..123])?;
    print_bytes(rt, "qform_code", &out[252..254])?;
    print_bytes(rt, "behind the header", &out[348..n])
}

// The turn of six numbers, as C names it, into a buffer of 384 bytes.
fn print_turned(
    rt: &impl Print,
    file: &[u8],
    axes: [u64; 3],
    reversed: [u64; 3],
) -> io::Result<()> {
    let [a, b, c] = axes;
    let [p, q, r] = reversed;
    println!(rt; "axes {a} {b} {c} reversed {p} {q} {r}")?;
    let t = turn_answers::turn_of(a, b, c, p, q, r);
    let mut out = [0u8; 384];
    match turn::turn(file, &[], t, &mut out, &mut []) {
        Ok(n) => print_file(rt, &out, n.file),
        Err(r) => println!(rt; "refused {}", r.number()),
    }
}

fn main(rt: HostRuntime) -> io::Result<()> {
    let mut buffer = [0u8; 384];
    let n = read_input::read_full(&rt, &mut buffer)?;
    let file = &buffer[..n];
    for axes in [
        [1, 2, 3],
        [1, 3, 2],
        [2, 1, 3],
        [2, 3, 1],
        [3, 1, 2],
        [3, 2, 1],
    ] {
        print_turned(&rt, file, axes, [0, 0, 0])?;
    }
    for reversed in [[1, 0, 0], [0, 1, 0], [0, 0, 1]] {
        print_turned(&rt, file, [1, 2, 3], reversed)?;
    }
    print_turned(&rt, file, [2, 3, 1], [1, 1, 1])?;
    print_turned(&rt, file, [2, 3, 2], [0, 0, 0])?;
    print_turned(&rt, file, [0, 1, 2], [0, 0, 0])
}
