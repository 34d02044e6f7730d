// Eight bytes of a buffer as one 64-bit word: loaded, its units turned round all at once, and stored. This is what "Turn four
// units round together" comes to (02-change-requests.md, P3); units of four and of eight bytes go the same way.
#![tactic(auto)]

ghost use Rattle.std.specs.Prelude.{◌≡◌, ◌+◌, ◌≤◌, length};
ghost use Rattle.std.proofs.lemmas.List.Edits.{sets};
ghost use Rattle.words.specs.Words.{word_at, word_bytes, turned_word, Fills};

// The bits of the first byte of each two.
const BYTES: u64 = 0x00ff_00ff_00ff_00ff;

// The word of the eight bytes from `at`, of which the compiler makes one load.
#[tactic(auto, unfolding(crate::specs::Words::word_at))]
pub fn word_at(s: &[u8], at: usize) -> u64
    requires { at + 8 ≤ length s.now }
    ensures { result ≡ word_at s.now at }
{
    u64::from_le_bytes([
        s[at],
        s[at + 1],
        s[at + 2],
        s[at + 3],
        s[at + 4],
        s[at + 5],
        s[at + 6],
        s[at + 7],
    ])
}

// Stores a word, of which the compiler makes one store. `copy_from_slice` would leave it a loop with no vectors.
#[tactic(auto, unfolding(crate::specs::Words::word_bytes))]
pub fn put_word(buf: &mut [u8], at: usize, word: u64)
    requires { at + 8 ≤ length buf.old }
    ensures { buf.new ≡ sets buf.old at (word_bytes word) }
{
    let [a, b, c, d, e, f, g, h] = word.to_le_bytes();
    buf[at] = a;
    buf[at + 1] = b;
    buf[at + 2] = c;
    buf[at + 3] = d;
    buf[at + 4] = e;
    buf[at + 5] = f;
    buf[at + 6] = g;
    buf[at + 7] = h;
}

// Four units of two bytes: the bytes of each two change places.
#[tactic(auto, using(crate::proofs::Steps::to_twos))]
fn twos(word: u64) -> u64
    ensures { result ≡ turned_word 2 word }
{
    ((word & BYTES) << 8) | ((word >> 8) & BYTES)
}

// One unit of eight bytes, of which the compiler makes one instruction.
#[tactic(auto, unfolding(crate::specs::Words::turned_word, crate::specs::Words::word_bytes, units::specs::Units::turned))]
fn eight(word: u64) -> u64
    ensures { result ≡ turned_word 8 word }
{
    word.swap_bytes()
}

// Two units of four bytes: the halves of a unit of eight change places again.
fn fours(word: u64) -> u64
    ensures { result ≡ turned_word 4 word }
{
    eight(word).rotate_left(32)
}

// A word with each of its units turned round.
pub fn turned(word: u64, unit: usize) -> u64
    requires { Fills unit }
    ensures { result ≡ turned_word unit word }
{
    match unit {
        2 => twos(word),
        4 => fours(word),
        _ => eight(word),
    }
}
