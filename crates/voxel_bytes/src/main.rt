// Prints voxels' bytes, as `by_file::voxel` hands them back (01-scope.md, "Voxels and byte order": "In another the
// voxel's bytes are handed back"). What is to be printed stands in the file stdout; a refused voxel has no bytes.
//
// Standard input is three files one after the other, 729 bytes; of any other length nothing is printed:
//   364 bytes: file A of 01-scope.md, a single file of 3 × 2 voxels with the 16-bit values 0 to 5, little-endian;
//   348 bytes: the header file of a pair of the same axes, big-endian, with vox_offset 5;
//    17 bytes: its image file, five bytes of 255 and the values 10 to 15.
// It is made in tests/ by
//   python3 -c 'import struct, sys; from nifti import *; sys.stdout.buffer.write(FILE_A + header(">", PAIR, offset=5.0)
//       + b"\xff" * 5 + struct.pack(">6h", *range(10, 16)))' > ../crates/voxel_bytes/stdin
#![tactic(auto)]

use std::io;

const SINGLE_END: usize = 364;

const HEADER_END: usize = 712;

const IMAGE_END: usize = 729;

fn print_voxel(rt: &impl Print, file: &[u8], image: &[u8], i: u64, j: u64) -> io::Result<()> {
    print!(rt; "voxel {i} {j}:")?;
    for b in by_file::voxel(file, image, [i, j, 0, 0, 0, 0, 0]) {
        print!(rt; " {b}")?;
    }
    println!(rt;)
}

// All six voxels, and the first index outside each axis.
fn print_voxels(rt: &impl Print, file: &[u8], image: &[u8]) -> io::Result<()> {
    for (i, j) in [
        (0, 0),
        (1, 0),
        (2, 0),
        (3, 0),
        (0, 1),
        (1, 1),
        (2, 1),
        (0, 2),
    ] {
        print_voxel(rt, file, image, i, j)?;
    }
    Ok(())
}

fn print_files(rt: &impl Print, input: &[u8]) -> io::Result<()> {
    if input.len() != IMAGE_END {
        return Ok(());
    }
    let file = &input[0..SINGLE_END];
    let header = &input[SINGLE_END..HEADER_END];
    let image = &input[HEADER_END..];
    println!(rt; "single file")?;
    print_voxels(rt, file, &[])?;
    println!(rt; "single file, with the image file of another")?;
    print_voxels(rt, file, image)?;
    println!(rt; "pair")?;
    print_voxels(rt, header, image)?;
    println!(rt; "pair, its image file a byte short")?;
    print_voxels(rt, header, &image[0..16])
}

fn main(rt: HostRuntime) -> io::Result<()> {
    // One byte more than is taken tells that the input is longer.
    let mut buffer = [0u8; IMAGE_END + 1];
    let n = read_input::read_full(&rt, &mut buffer)?;
    print_files(&rt, &buffer[..n])
}
