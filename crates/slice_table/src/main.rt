// Prints the answers of document 004's setting, seven slices of which 1 to 5 were acquired, by all six slice codes, and the
// slices of all ranks; the same where timing is unstated and where times are infinite; the ranks of an even number of slices,
// which no document has; and positions, of which the first shows the order of the
// roundings. The files are pairs' header files, made here. What is to be printed stands in the file stdout.
#![tactic(auto)]

ghost use Rattle.std.specs.Prelude.{◌≡◌, true, ◌<◌};
ghost use Rattle.std.specs.Float.Ieee.Scale.{finite};

use field::Order;
use std::io;
use timing::Slice;

// A number's bit pattern.
#[tactic(auto, using(number::proofs::Floats::finite_no_nan))]
fn pattern(x: f32) -> u32
    requires { finite x ≡ true }
{
    x.to_bits()
}

// A pair's header file with three axes, a byte a voxel.
fn put_shape(file: &mut [u8], a: i16, b: i16, c: i16) {
    store::put(file, 0, Order::Little, 348i32);
    store::put(file, 40, Order::Little, 3i16);
    store::put(file, 42, Order::Little, a);
    store::put(file, 44, Order::Little, b);
    store::put(file, 46, Order::Little, c);
    store::put(file, 70, Order::Little, 2i16);
    store::put(file, 72, Order::Little, 8i16);
    store::put(file, 344, Order::Little, 0x0031_696eu32);
}

// Slices along the third axis, by the bit pattern of the time that each takes.
fn put_timing(file: &mut [u8], code: u8, start: i16, end: i16, duration: u32) {
    store::put_byte(file, 39, 0x30);
    store::put(file, 74, Order::Little, start);
    store::put(file, 120, Order::Little, end);
    store::put_byte(file, 122, code);
    store::put(file, 132, Order::Little, duration);
}

// A row of the affine map, by the bit patterns of its numbers.
fn put_row(file: &mut [u8], at: usize, row: [u32; 4])
    requires { at < 4294967000 }
{
    store::put(file, at, Order::Little, row[0]);
    store::put(file, at + 4, Order::Little, row[1]);
    store::put(file, at + 8, Order::Little, row[2]);
    store::put(file, at + 12, Order::Little, row[3]);
}

fn print_slice(rt: &impl Print, file: &[u8], s: u64) -> io::Result<()> {
    print!(rt; "slice {s}")?;
    match slice_position::slice_at(file, s) {
        Err(r) => print!(rt; " {r}")?,
        Ok(Slice::Unstated) => print!(rt; " unstated")?,
        Ok(Slice::Padding) => print!(rt; " padding")?,
        Ok(Slice::Timed(rank, time)) => { print!(rt; " rank {rank} time {:08x}", pattern(time))? }
    }
    println!(rt)
}

// The answers for all seven slices, and for the first index outside the axis.
fn print_slices(rt: &impl Print, file: &[u8]) -> io::Result<()> {
    for s in 0..8 {
        print_slice(rt, file, s)?;
    }
    Ok(())
}

fn print_ranked(rt: &impl Print, file: &[u8], rank: u64) -> io::Result<()> {
    print!(rt; "rank {rank}")?;
    match slice_position::slice_of_rank(file, rank) {
        Err(r) => println!(rt; " {r}"),
        Ok(None) => println!(rt; " unstated"),
        Ok(Some(s)) => println!(rt; " slice {s}"),
    }
}

// The slices of all five ranks, and of the first number that is no rank.
fn print_acquired(rt: &impl Print, file: &[u8]) -> io::Result<()> {
    for rank in 0..6 {
        print_ranked(rt, file, rank)?;
    }
    Ok(())
}

// The ranks of the slices 1 to last.
fn print_ranks(rt: &impl Print, file: &[u8], last: u8) -> io::Result<()>
    requires { last < 7 }
{
    for s in 1..=last {
        match slice_position::slice_at(file, s as u64) {
            Ok(Slice::Timed(rank, _)) => print!(rt; " {rank}")?,
            _ => print!(rt; " none")?,
        }
    }
    println!(rt)
}

// Seven slices, of which 1 to 5 were acquired, each in this time.
fn print_table(rt: &impl Print, code: u8, duration: u32) -> io::Result<()> {
    let mut file = [0u8; 348];
    put_shape(&mut file, 1, 1, 7);
    put_timing(&mut file, code, 1, 5, duration);
    println!(rt; "slices 1 to 5, code {code}, duration {duration:08x}")?;
    print_slices(rt, &file)?;
    print_acquired(rt, &file)
}

// Seven slices, of which 1 to last were acquired: their ranks by a code.
fn print_code(rt: &impl Print, code: u8, last: u8) -> io::Result<()>
    requires { last < 7 }
{
    let mut file = [0u8; 348];
    put_shape(&mut file, 1, 1, 7);
    put_timing(&mut file, code, 1, last as i16, 0x3dcc_cccd);
    print!(rt; "slices 1 to {last}, code {code}, ranks")?;
    print_ranks(rt, &file, last)
}

fn print_codes(rt: &impl Print, last: u8) -> io::Result<()>
    requires { last < 7 }
{
    for code in 1..=6 {
        print_code(rt, code, last)?;
    }
    Ok(())
}

fn print_position(rt: &impl Print, file: &[u8], i: u64, j: u64, k: u64) -> io::Result<()> {
    match slice_position::position_of(file, i, j, k) {
        Ok(p) => {
            let x = pattern(p.x);
            let y = pattern(p.y);
            let z = pattern(p.z);
            println!(rt; "position {x:08x} {y:08x} {z:08x}")
        }
        Err(r) => println!(rt; "position {r}"),
    }
}

// The first row rounds differently in any other order; the others are y = j and z = k.
fn print_positions(rt: &impl Print, sform_code: i16) -> io::Result<()> {
    let mut file = [0u8; 348];
    put_shape(&mut file, 186, 207, 60);
    store::put(&mut file, 254, Order::Little, sform_code);
    put_row(
        &mut file,
        280,
        [0xbf09_b16b, 0x4006_4993, 0xc07e_ebf5, 0xbedf_b1ad],
    );
    put_row(&mut file, 296, [0, 0x3f80_0000, 0, 0]);
    put_row(&mut file, 312, [0, 0, 0x3f80_0000, 0]);
    print_position(rt, &file, 185, 206, 59)?;
    print_position(rt, &file, 186, 206, 59)
}

fn main(rt: HostRuntime) -> io::Result<()> {
    for code in 1..=6 {
        print_table(&rt, code, 0x3dcc_cccd)?;
    }
    print_table(&rt, 0, 0x3dcc_cccd)?;
    print_table(&rt, 3, 0x7f7f_ffff)?;
    print_codes(&rt, 4)?;
    print_codes(&rt, 6)?;
    print_codes(&rt, 2)?;
    print_positions(&rt, 1)?;
    print_positions(&rt, 0)?;
    print_positions(&rt, -1)
}
