// Prints lines of voxels of the file that is on standard input, by both engines on a file and by the call on its record (02-change-requests.md, P7):
// through one voxel along each axis, into buffers that are longer, as long and a byte short, and with arguments that are refused. The whole
// buffer is printed; what is not written stays 238. What is to be printed stands in the file stdout.
//
// Standard input is a single file of 3 × 2 × 2 × 2 voxels with the 16-bit values 0 to 23, little-endian. It is made in tests/ by
//   python3 -c 'import struct, sys; from nifti import *; sys.stdout.buffer.write(header(dim=(4, 3, 2, 2, 2)) + NONE
//       + struct.pack("<24h", *range(24)))' > ../crates/line_table/stdin
#![tactic(auto)]

use line_copy::{Steps, Voxels};
use refusal::Refusal;
use std::io;

fn print_lined(
    rt: &impl Print,
    name: &str,
    lined: Result<usize, Refusal>,
    buffer: &[u8],
) -> io::Result<()> {
    match lined {
        Ok(n) => print!(rt; "{name} copied {n}:")?,
        Err(r) => print!(rt; "{name} {r}:")?,
    }
    for b in buffer {
        print!(rt; " {b}")?;
    }
    println!(rt;)
}

// The line by both engines and by the record, into a buffer of `room` bytes, of which there are at most 8.
fn print_line(
    rt: &impl Print,
    file: &[u8],
    room: usize,
    axis: u64,
    index: [u64; 7],
) -> io::Result<()> {
    if 8 < room {
        return Ok(());
    }
    let [i, j, k, t, ..] = index;
    println!(rt; "axis {axis} through {i} {j} {k} {t} into {room}")?;
    let mut out = [238u8; 8];
    let lined = line::line::<Steps>(file, &[], axis, index, &mut out[..room]);
    print_lined(rt, "by steps", lined, &out[..room])?;
    let mut out = [238u8; 8];
    let lined = line::line::<Voxels>(file, &[], axis, index, &mut out[..room]);
    print_lined(rt, "by voxel", lined, &out[..room])?;
    let mut out = [238u8; 8];
    let header = reader::read(file).header;
    let lined = line::line_in::<Steps>(header, file, &[], axis, index, &mut out[..room]);
    print_lined(rt, "by record", lined, &out[..room])
}

fn main(rt: HostRuntime) -> io::Result<()> {
    // One byte more than the file has tells that the input is longer: it is then another file.
    let mut buffer = [0u8; 401];
    let n = read_input::read_full(&rt, &mut buffer)?;
    let file = &buffer[..n];
    let through = [1, 1, 0, 1, 0, 0, 0];
    for (room, axis) in [
        (8, 1),
        (8, 2),
        (8, 3),
        (8, 4),
        (6, 1),
        (5, 1),
        (8, 0),
        (8, 5),
        (8, u64::MAX),
    ] {
        print_line(&rt, file, room, axis, through)?;
    }
    print_line(&rt, file, 8, 1, [3, 1, 0, 1, 0, 0, 0])?;
    print_line(&rt, file, 8, 1, [1, 2, 0, 1, 0, 0, 0])?;
    print_line(&rt, file, 0, 0, through)
}
