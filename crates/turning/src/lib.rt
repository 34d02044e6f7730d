// What a swap turns round beside the header: the size and code of each extension, and the units of the image
// (01-scope.md, "Voxels and byte order"). The file was accepted before; it is not judged here.
#![tactic(auto)]

ghost use Rattle.std.specs.Prelude.{◌≡◌, ◌+◌, ◌*◌, ◌/◌, ◌≤◌, length, drop};
ghost use Rattle.extension.specs.Walk.{first_place};
ghost use Rattle.units.specs.Units.{turned_at};
ghost use Rattle.units.specs.Runs.{turn_runs_at};
ghost use Rattle.turning.specs.Turn.{unit_in, runs_in, Standing};

use extension::FIRST;
use field::{Number, Order};
use rules::Image;

// How the units of an image are turned round. Every engine leaves the same bytes (02-change-requests.md, P3).
pub trait Engine {
    fn turn(buf: &mut [u8], start: usize, count: usize, unit: usize)
        requires { start + count * unit ≤ length buf.old }
        ensures { buf.new ≡ turned_at unit start count buf.old };
}

// Several units together.
#[derive(Clone, Copy)]
pub struct Together;

impl Engine for Together {
    fn turn(buf: &mut [u8], start: usize, count: usize, unit: usize) {
        word_turns::turn_many(buf, start, count, unit)
    }
}

// One unit after the other.
#[derive(Clone, Copy)]
pub struct Singly;

impl Engine for Singly {
    fn turn(buf: &mut [u8], start: usize, count: usize, unit: usize) {
        units::turn_units(buf, start, count, unit)
    }
}

// The swap unit of a file: that of its datatype.
pub fn unit_in(file: &[u8], order: Order) -> usize
    requires { 348 ≤ length file.now }
    ensures { result ≡ unit_in order file.now }
{
    datatype::datatype_of(i16::read(file, 70, order)).map_or(1, |format| format.unit)
}

// Turns round the size and code of each of `count` extensions. A size is read, in the order that the file still has
// there, before it is turned.
pub fn turn_list(file: &mut [u8], count: usize, order: Order)
    requires { Standing order count (drop first_place file.old) }
    ensures { file.new
        ≡ turn_runs_at first_place (runs_in order count (drop first_place file.old)) file.old }
{
    let mut at = FIRST;
    for _ in 0..count {
        let size = u32::read(file, at, order);
        units::turn_units(file, at, 2, 4);
        at += size as usize;
    }
}

// Turns round each unit of an image, in the buffer that holds it.
pub fn turn_image<E: Engine>(buf: &mut [u8], image: Image, unit: usize)
    requires { (1 ≤ unit) × (image.offset + image.bytes ≤ length buf.old) }
    ensures { buf.new ≡ turned_at unit image.offset (image.bytes / unit) buf.old }
{
    let start = image.offset as usize;
    let count = image.bytes as usize / unit;
    E::turn(buf, start, count, unit)
}
