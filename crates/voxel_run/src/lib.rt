// The first voxels of axis 1, located one after the other: by the record of one reading, and by the file, which is read
// for each (01-scope.md, "Voxels and byte order": "One call answers the place and length, or the refusal"). Made for
// the benchmark, whose two rows so answer the same number.
#![tactic(auto)]

ghost use Rattle.std.specs.Prelude.{◌≡◌};
ghost use Rattle.voxel_run.specs.Farthest.{place_of, farthest_in, farthest};

use header::Header;
use refusal::Refusal;
use voxel::Extent;

// A voxel's place, and 0 where it is refused.
fn place_of(located: Result<Extent, Refusal>) -> u64
    ensures { result ≡ place_of located }
{
    located.map_or(0, |e| e.place)
}

// By a record that was read before.
fn run_in(header: Header, count: u64) -> u64
    ensures { result ≡ farthest_in header count }
{
    let mut most = 0;
    for k in 0..count {
        let located = voxel::locate_in(header, 0, [k, 0, 0, 0, 0, 0, 0]);
        most = most.max(place_of(located));
    }
    most
}

// The farthest place among the first `count` voxels of axis 1, a refused one counting as 0. The file is read once.
#[unsafe(no_mangle)]
pub extern "C" fn voxel_run_by_record(file: &[u8], count: u64) -> u64
    ensures { result ≡ farthest file.now count }
{
    let reading = reader::read(file);
    match reading.verdict {
        Err(_) => 0,
        Ok(()) => run_in(reading.header, count),
    }
}

// The same. The file is read for each voxel.
#[unsafe(no_mangle)]
pub extern "C" fn voxel_run_by_file(file: &[u8], count: u64) -> u64
    ensures { result ≡ farthest file.now count }
{
    let mut most = 0;
    for k in 0..count {
        let located = by_file::locate(file, &[], [k, 0, 0, 0, 0, 0, 0]);
        most = most.max(place_of(located));
    }
    most
}
