// Lines along an axis, through the first voxels of axis 1 one after the other, by the record of one reading (02-change-requests.md, P7: a
// window that draws many lines). Made for the benchmark.
#![tactic(auto)]

ghost use Rattle.std.specs.Prelude.{◌≡◌};
ghost use Rattle.line_run.specs.Drawn.{most_in, out_in, most, out_after};

use header::Header;
use line_copy::{Engine, Steps, Voxels};

// By a record that was read before; each line is written over the one before, and a refused one has no bytes.
fn run_in<E: Engine>(header: Header, file: &[u8], axis: u64, count: u64, out: &mut [u8]) -> usize
    ensures { (result ≡ most_in header file.now axis count out.old)
        × (out.new ≡ out_in header file.now axis count out.old) }
{
    let mut most = 0;
    for k in 0..count {
        let index = [k, 0, 0, 0, 0, 0, 0];
        let lined = line::line_in::<E>(header, file, &[], axis, index, out);
        most = most.max(lined.unwrap_or(0));
    }
    most
}

// The file is read once.
fn run<E: Engine>(file: &[u8], axis: u64, count: u64, out: &mut [u8]) -> u64
    ensures { (result ≡ most file.now axis count out.old)
        × (out.new ≡ out_after file.now axis count out.old) }
{
    let reading = reader::read(file);
    match reading.verdict {
        Err(_) => 0,
        Ok(()) => run_in::<E>(reading.header, file, axis, count, out) as u64,
    }
}

// The most bytes among the first `count` lines, by the step of the axis.
#[unsafe(no_mangle)]
pub extern "C" fn line_run_by_steps(file: &[u8], axis: u64, count: u64, out: &mut [u8]) -> u64
    ensures { (result ≡ most file.now axis count out.old)
        × (out.new ≡ out_after file.now axis count out.old) }
{
    run::<Steps>(file, axis, count, out)
}

// The same, each voxel located by itself.
#[unsafe(no_mangle)]
pub extern "C" fn line_run_by_voxel(file: &[u8], axis: u64, count: u64, out: &mut [u8]) -> u64
    ensures { (result ≡ most file.now axis count out.old)
        × (out.new ≡ out_after file.now axis count out.old) }
{
    run::<Voxels>(file, axis, count, out)
}
