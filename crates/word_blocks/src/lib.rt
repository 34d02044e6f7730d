// Blocks of units that are turned round in place together: what the loops of the crate word_turns do at each turn. How many
// bytes go together, and by which instructions, is for speed alone.
#![tactic(auto)]

ghost use Rattle.std.specs.Prelude.{◌≡◌, ◌+◌, ◌/◌, ◌≤◌, length};
ghost use Rattle.units.specs.Units.{turned_at};
ghost use Rattle.word_blocks.specs.Blocks.{Wide};

// Four units of two bytes: one word is loaded, its bytes are exchanged in pairs, and it is stored.
pub fn turn_twos(buf: &mut [u8], at: usize)
    requires { at + 8 ≤ length buf.old }
    ensures { buf.new ≡ turned_at 2 at 4 buf.old }
{
    let word = words::word_at(buf, at);
    words::put_word(buf, at, words::turned(word, 2));
}

// Sixteen bytes of wider units as eight pairs, each turned round, in the other order within each unit: the compiler makes
// one vector of them.
fn turn_pairs(buf: &mut [u8], at: usize, unit: usize)
    requires { Wide unit × (at + 16 ≤ length buf.old) }
    ensures { buf.new ≡ turned_at unit at (16 / unit) buf.old }
{
    let a = byte_pairs::turned_at(buf, at);
    let b = byte_pairs::turned_at(buf, at + 2);
    let c = byte_pairs::turned_at(buf, at + 4);
    let d = byte_pairs::turned_at(buf, at + 6);
    let e = byte_pairs::turned_at(buf, at + 8);
    let f = byte_pairs::turned_at(buf, at + 10);
    let g = byte_pairs::turned_at(buf, at + 12);
    let h = byte_pairs::turned_at(buf, at + 14);
    match unit {
        4 => {
            byte_pairs::put_four(buf, at, b, a, d, c);
            byte_pairs::put_four(buf, at + 8, f, e, h, g);
        }
        8 => {
            byte_pairs::put_four(buf, at, d, c, b, a);
            byte_pairs::put_four(buf, at + 8, h, g, f, e);
        }
        _ => {
            byte_pairs::put_four(buf, at, h, g, f, e);
            byte_pairs::put_four(buf, at + 8, d, c, b, a);
        }
    }
}

// Sixteen bytes of wider units as two words, of which the compiler makes no vector.
fn turn_words(buf: &mut [u8], at: usize, unit: usize)
    requires { Wide unit × (at + 16 ≤ length buf.old) }
    ensures { buf.new ≡ turned_at unit at (16 / unit) buf.old }
{
    let a = words::word_at(buf, at);
    let b = words::word_at(buf, at + 8);
    match unit {
        4 => {
            words::put_word(buf, at, words::turned(a, 4));
            words::put_word(buf, at + 8, words::turned(b, 4));
        }
        8 => {
            words::put_word(buf, at, words::turned(a, 8));
            words::put_word(buf, at + 8, words::turned(b, 8));
        }
        _ => {
            words::put_word(buf, at, words::turned(b, 8));
            words::put_word(buf, at + 8, words::turned(a, 8));
        }
    }
}

// Thirty-two bytes of wider units, half of them by a vector and half not: the processor does both at once.
fn turn_both(buf: &mut [u8], at: usize, unit: usize)
    requires { Wide unit × (at + 32 ≤ length buf.old) }
    ensures { buf.new ≡ turned_at unit at (32 / unit) buf.old }
{
    turn_pairs(buf, at, unit);
    turn_words(buf, at + 16, unit);
}

// Sixty-four bytes of wider units.
pub fn turn_wide(buf: &mut [u8], at: usize, unit: usize)
    requires { Wide unit × (at + 64 ≤ length buf.old) }
    ensures { buf.new ≡ turned_at unit at (64 / unit) buf.old }
{
    turn_both(buf, at, unit);
    turn_both(buf, at + 32, unit);
}
