// A signed number as a length: 0 where it is negative. The laws on lists and numbers that several crates cite stand in proofs/.
#![tactic(auto)]

ghost use Rattle.std.specs.Prelude.{◌≡◌, ◌≤◌};
ghost use Rattle.number.specs.Natural.{natural_of};

pub fn natural(z: i16) -> u64
    ensures { (result ≡ natural_of z) × (result ≤ 32767) }
{
    z.max(0) as u64
}

pub fn natural32(z: i32) -> usize
    ensures { (result ≡ natural_of z) × (result ≤ 2147483647) }
{
    usize::try_from(z).unwrap_or(0)
}
