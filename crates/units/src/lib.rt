// Turning units round in place: units of any width, and the numbers of a header. This carries out "Swapping turns round
// each 2- or 4-byte header field, unused numbers included, ... and each swap unit of the image. All else stays"
// (01-scope.md, "Voxels and byte order").
#![tactic(auto)]

ghost use Rattle.std.specs.Prelude.{◌≡◌, ◌+◌, ◌*◌, ◌≤◌, length};
ghost use Rattle.units.specs.Units.{turned_at};
ghost use Rattle.units.specs.Runs.{turn_runs_at, header_runs};

// Turns round `count` units of `unit` bytes from `start`: the one loop for every width.
fn turn_each(buf: &mut [u8], start: usize, count: usize, unit: usize)
    requires { start + count * unit ≤ length buf.old }
    ensures { buf.new ≡ turned_at unit start count buf.old }
{
    for k in 0..count {
        let at = start + k * unit;
        buf[at..at + unit].reverse();
    }
}

// The same, with each width that a datatype has as a constant, so that the compiler makes and unrolls a loop for each.
// A unit of one byte turned round is itself.
#[tactic(auto, using(crate::proofs::Units::turned_at_bytes))]
pub fn turn_units(buf: &mut [u8], start: usize, count: usize, unit: usize)
    requires { start + count * unit ≤ length buf.old }
    ensures { buf.new ≡ turned_at unit start count buf.old }
{
    match unit {
        1 => {}
        2 => turn_each(buf, start, count, 2),
        4 => turn_each(buf, start, count, 4),
        8 => turn_each(buf, start, count, 8),
        16 => turn_each(buf, start, count, 16),
        _ => turn_each(buf, start, count, unit),
    }
}

// Turns round each number of a header, the unused ones too; `header_runs` names the fields of each call.
pub fn turn_header(buf: &mut [u8])
    requires { 348 ≤ length buf.old }
    ensures { buf.new ≡ turn_runs_at 0 header_runs buf.old }
{
    turn_units(buf, 0, 1, 4);
    turn_units(buf, 32, 1, 4);
    turn_units(buf, 36, 1, 2);
    turn_units(buf, 40, 8, 2);
    turn_units(buf, 56, 3, 4);
    turn_units(buf, 68, 4, 2);
    turn_units(buf, 76, 11, 4);
    turn_units(buf, 120, 1, 2);
    turn_units(buf, 124, 6, 4);
    turn_units(buf, 252, 2, 2);
    turn_units(buf, 256, 18, 4);
}
