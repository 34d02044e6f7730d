// The head console's slice card (02-change-requests.md, P14). It stands above the library and knows it by its promises alone: those of
// reading, of the slice of a rank (P8), and of whether timing is stated, how many slices were acquired and how many the axis has.
#![tactic(auto)]

ghost use Rattle.std.specs.Prelude.{◌≡◌, [], ◌∷◌, ◌++◌, ◌+◌, ◌≤◌, length};
ghost use Rattle.buffer.specs.Put.{put};
ghost use Rattle.buffer.specs.Fill.{Fills};
ghost use Rattle.decimal.specs.Decimal.{decimal};
ghost use Rattle.reader.specs.Reading.{reading_of};
ghost use Rattle.card_lines.specs.Lines.{ended};
ghost use Rattle.slice_card.specs.Card.{padded_count, padded, no_timing, stated_lines, card_text, room_for, card_answer, card_out};

use reader::Reading;
use refusal::{Refusal, Rule};
use timing::Acquisition;

// How many slices of the axis were not acquired.
fn padded_count(a: Acquisition) -> u64
    ensures { result ≡ padded_count a }
{
    timing::slice_count(a).saturating_sub(slice_rank::acquired_count(a))
}

// The last line, `padded COUNT`, into out from `at`; the answer is the place behind it.
fn put_padded(out: &mut [u8], at: usize, count: u64) -> usize
    requires { at + length (decimal count) + 8 ≤ length out.old }
    ensures { (result ≡ at + length (decimal count) + 8)
        × (out.new ≡ put out.old at (padded ++ (decimal count ++ (10 ∷ [])))) }
{
    decimal::put_named(out, at, b"padded ", count)
}

// The card where timing is stated.
fn put_stated(a: Acquisition, out: &mut [u8]) -> Result<usize, Refusal>
    ensures { Fills (room_for (ended (stated_lines a)) (length out.old)) (ended (stated_lines a))
        out.old result out.new }
{
    let n = slice_rank::acquired_count(a);
    let count = padded_count(a);
    let width = card_lines::lines_width(a, n) + decimal::width(count) + 8;
    if out.len() < width {
        return Err(Rule::ShortBuffer.at(0));
    }
    let at = card_lines::put_lines(out, a, n);
    Ok(put_padded(out, at, count))
}

// The card where it is not.
fn put_unstated(out: &mut [u8]) -> Result<usize, Refusal>
    ensures { Fills (room_for (ended (no_timing ∷ [])) (length out.old)) (ended (no_timing ∷ []))
        out.old result out.new }
{
    if out.len() < 10 {
        return Err(Rule::ShortBuffer.at(0));
    }
    buffer::copy_in(out, 0, b"no timing\n");
    Ok(10)
}

// The card by the fields that say how the slices were acquired: 22 where it does not fit. Any fields may be asked.
pub fn card_by(a: Acquisition, out: &mut [u8]) -> Result<usize, Refusal>
    ensures { Fills (room_for (card_text a) (length out.old)) (card_text a) out.old result out.new }
{
    if timing::is_stated(a) {
        put_stated(a, out)
    } else {
        put_unstated(out)
    }
}

// The card of what reading answered, of a whole file or of one that came in pieces: the reading's refusal, then 22.
pub fn card_of(reading: Reading, out: &mut [u8]) -> Result<usize, Refusal>
    ensures { (result ≡ card_answer reading (length out.old)) × (out.new ≡ card_out reading out.old) }
{
    reading.verdict?;
    card_by(timing::acquisition_of(reading.header), out)
}

// The card of a file: 1 to 15, then 22.
pub fn card(file: &[u8], out: &mut [u8]) -> Result<usize, Refusal>
    ensures { (result ≡ card_answer (reading_of file.now) (length out.old))
        × (out.new ≡ card_out (reading_of file.now) out.old) }
{
    card_of(reader::read(file), out)
}
