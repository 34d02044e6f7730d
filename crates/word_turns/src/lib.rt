// Turning many units round, several together: "Turn four units round together while at least eight image bytes are left, and
// finish the rest singly" (02-change-requests.md, P3), and wider units the same way. What is promised is what
// `units::turn_units` promises, which goes unit by unit.
#![tactic(auto)]

ghost use Rattle.std.specs.Prelude.{◌≡◌, ◌+◌, ◌*◌, ◌≤◌, length};
ghost use Rattle.units.specs.Units.{turned_at};
ghost use Rattle.word_blocks.specs.Blocks.{Wide};

// Units of two bytes: four together while at least eight bytes are left, and the rest singly. The compiler makes vectors of
// several words.
fn turn_twos(buf: &mut [u8], start: usize, count: usize)
    requires { start + count * 2 ≤ length buf.old }
    ensures { buf.new ≡ turned_at 2 start count buf.old }
{
    let end = start + count * 2;
    let mut left = count * 2;
    while 8 <= left {
        word_blocks::turn_twos(buf, end - left);
        left = left - 8;
    }
    units::turn_units(buf, end - left, left / 2, 2);
}

// Wider units: sixty-four bytes together while as many are left, and the rest singly.
fn turn_wide(buf: &mut [u8], start: usize, count: usize, unit: usize)
    requires { Wide unit × (start + count * unit ≤ length buf.old) }
    ensures { buf.new ≡ turned_at unit start count buf.old }
{
    let end = start + count * unit;
    let mut left = count * unit;
    while 64 <= left {
        word_blocks::turn_wide(buf, end - left, unit);
        left = left - 64;
    }
    units::turn_units(buf, end - left, left / unit, unit);
}

// Turns round `count` units of `unit` bytes from `start`, with each width that a datatype has as a constant, so that the
// compiler makes a loop for each.
pub fn turn_many(buf: &mut [u8], start: usize, count: usize, unit: usize)
    requires { start + count * unit ≤ length buf.old }
    ensures { buf.new ≡ turned_at unit start count buf.old }
{
    match unit {
        2 => turn_twos(buf, start, count),
        4 => turn_wide(buf, start, count, 4),
        8 => turn_wide(buf, start, count, 8),
        16 => turn_wide(buf, start, count, 16),
        _ => units::turn_units(buf, start, count, unit),
    }
}
