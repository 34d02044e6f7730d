// The lines of the slice card that show the acquired slices, into a lent buffer (02-change-requests.md, P14). Which slice stands on a line is
// asked of `slice_rank::ranked_by`, and nothing else is known of it than what that call promises.
#![tactic(auto)]

ghost use Rattle.std.specs.Prelude.{◌≡◌, ◌+◌, ◌*◌, ◌≤◌, length};
ghost use Rattle.buffer.specs.Put.{put};
ghost use Rattle.card_lines.specs.Lines.{line_text, lines_text};

use timing::Acquisition;

// How many bytes the line of a rank has.
fn line_width(a: Acquisition, rank: u64) -> usize
    ensures { (result ≡ length (line_text a rank)) × (result ≤ 42) }
{
    match slice_rank::ranked_by(a, rank) {
        Ok(Some(slice)) => decimal::width(rank) + decimal::width(slice as u64) + 2,
        Ok(None) => 0,
        Err(_) => 0,
    }
}

// The line of a rank into out from `at`; the answer is the place behind it.
fn put_line(out: &mut [u8], at: usize, a: Acquisition, rank: u64) -> usize
    requires { at + length (line_text a rank) ≤ length out.old }
    ensures { (result ≡ at + length (line_text a rank)) × (out.new ≡ put out.old at (line_text a rank)) }
{
    match slice_rank::ranked_by(a, rank) {
        Ok(Some(slice)) => {
            let next = decimal::put_number(out, at, rank, 32);
            decimal::put_number(out, next, slice as u64, 10)
        }
        Ok(None) => at,
        Err(_) => at,
    }
}

// How many bytes the lines of the ranks below n have.
pub fn lines_width(a: Acquisition, n: u64) -> usize
    requires { n ≤ 32768 }
    ensures { (result ≡ length (lines_text a n)) × (result ≤ 42 * n) }
{
    let mut width = 0;
    for rank in 0..n {
        width += line_width(a, rank);
    }
    width
}

// These lines into the front of out; the answer is the place behind them.
pub fn put_lines(out: &mut [u8], a: Acquisition, n: u64) -> usize
    requires { length (lines_text a n) ≤ length out.old }
    ensures { (result ≡ length (lines_text a n)) × (out.new ≡ put out.old 0 (lines_text a n)) }
{
    let mut at = 0;
    for rank in 0..n {
        at = put_line(out, at, a, rank);
    }
    at
}
