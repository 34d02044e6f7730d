// Numbers in decimal, in the text that a call writes into a lent buffer (02-change-requests.md, P14: "decimal").
#![tactic(auto)]

ghost use Rattle.std.specs.Prelude.{◌≡◌, [], ◌∷◌, ◌++◌, ◌+◌, ◌≤◌, length};
ghost use Rattle.buffer.specs.Put.{put};
ghost use Rattle.decimal.specs.Decimal.{decimal};

// How many digits n has.
pub fn width(n: u64) -> usize
    ensures { (result ≡ length (decimal n)) × (result ≤ 20) }
{
    if n == 0 {
        return 1;
    }
    n.ilog10() as usize + 1
}

// n into out from `at`, and the byte `after` behind it; the answer is the place behind both. The last digit is written first.
pub fn put_number(out: &mut [u8], at: usize, n: u64, after: u8) -> usize
    requires { at + length (decimal n) + 1 ≤ length out.old }
    ensures { (result ≡ at + length (decimal n) + 1)
        × (out.new ≡ put out.old at (decimal n ++ (after ∷ []))) }
{
    let end = at + width(n);
    out[end] = after;
    let mut i = end;
    let mut rest = n;
    while 10 <= rest {
        i -= 1;
        out[i] = 48 + (rest % 10) as u8;
        rest /= 10;
    }
    out[at] = 48 + rest as u8;
    end + 1
}

// The words of a line and its last number, and the line feed, into out from `at`; the answer is the place behind them.
pub fn put_named(out: &mut [u8], at: usize, words: &[u8], n: u64) -> usize
    requires { at + length words.now + length (decimal n) + 1 ≤ length out.old }
    ensures { (result ≡ at + length words.now + length (decimal n) + 1)
        × (out.new ≡ put out.old at (words.now ++ (decimal n ++ (10 ∷ [])))) }
{
    buffer::copy_in(out, at, words);
    put_number(out, at + words.len(), n, 10)
}
