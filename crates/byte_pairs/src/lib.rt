// Two bytes of a buffer as one 16-bit number: loaded, turned round, and stored. Of eight such numbers side by side the
// compiler makes one vector, in whatever order they are stored.
#![tactic(auto)]

ghost use Rattle.std.specs.Prelude.{◌≡◌, reverse, ◌++◌, ◌+◌, ◌<◌, ◌≤◌, length, take, drop};
ghost use Rattle.std.proofs.lemmas.List.Edits.{sets};
ghost use Rattle.byte_pairs.specs.Pairs.{pair_bytes};

// The number of the two bytes from `at`, turned round: the compiler makes one load.
#[tactic(auto, unfolding(crate::specs::Pairs::pair_bytes))]
pub fn turned_at(s: &[u8], at: usize) -> u16
    requires { at + 2 ≤ length s.now }
    ensures { pair_bytes result ≡ reverse (take 2 (drop at s.now)) }
{
    u16::from_be_bytes([s[at], s[at + 1]])
}

#[tactic(auto, unfolding(crate::specs::Pairs::pair_bytes))]
fn put_pair(buf: &mut [u8], at: usize, n: u16)
    requires { at + 2 ≤ length buf.old }
    ensures { buf.new ≡ sets buf.old at (pair_bytes n) }
{
    let [first, second] = n.to_le_bytes();
    buf[at] = first;
    buf[at + 1] = second;
}

// Stores four numbers, one after the other.
pub fn put_four(buf: &mut [u8], at: usize, a: u16, b: u16, c: u16, d: u16)
    requires { at + 8 ≤ length buf.old }
    ensures { buf.new
        ≡ sets buf.old at ((pair_bytes a ++ pair_bytes b) ++ (pair_bytes c ++ pair_bytes d)) }
{
    put_pair(buf, at, a);
    put_pair(buf, at + 2, b);
    put_pair(buf, at + 4, c);
    put_pair(buf, at + 6, d);
}
