// The writer: a record's 348 bytes at the front of a lent buffer, or the refusal (01-scope.md, "The writer takes any
// record"; 02-change-requests.md, P4 and P6).
#![tactic(auto)]

ghost use Rattle.std.specs.Prelude.{◌≡◌, length, Err};
ghost use Rattle.rules.specs.Rules.{shape_of_record, aligned_in, wrong_facts, Measured};
ghost use Rattle.writer.specs.Write.{write_answer, written};

use header::Header;
use refusal::{Refusal, Rule};

// 26, of a record that rules 2 and 5 to 10 pass: whether a size is not what its dims and datatype give, or its aligned fact not
// what the reading of its offset said.
fn has_wrong_facts(header: Header, aligned: bool) -> bool
    requires measured { Measured (shape_of_record header) }
    requires header_value { aligned_in (shape_of_record header) ≡ aligned }
    ensures { result ≡ wrong_facts header }
{
    let sizes = sizes::sizes_in(header.dim, header.intent.bitpix);
    !sizes::are_same(header.sizes, sizes) || header.aligned != aligned
}

// Writes 348 and the kind's magic and all other fields as the record has them, in the record's own byte order. Only the
// first 348 bytes change, and on a refusal none. The record's spans are not read.
pub fn write(header: Header, buf: &mut [u8]) -> Result<(), Refusal>
    ensures answer { result ≡ write_answer header (length buf.old) }
    ensures content { buf.new ≡ written header buf.old }
{
    let (_, aligned) = rules::judge_record(header)?;
    if has_wrong_facts(header, aligned) {
        return Err(Rule::WrongRecord.at(0));
    }
    if buf.len() < 348 {
        return Err(Rule::ShortBuffer.at(0));
    }
    encode::write_header(header, buf);
    Ok(())
}
