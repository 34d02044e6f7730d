// The C interface's structs for a file that comes in pieces, and which struct each answer of the piece reader is
// (02-change-requests.md, P1). The state goes through C as it is. The exports themselves are the crate vestumbral.
#![tactic(auto)]

ghost use Rattle.std.specs.Prelude.{◌≡◌, ◌≤◌, get_or};
ghost use Rattle.extension.specs.Walk.{extension_limit};
ghost use Rattle.answers.specs.Answers.{shown_file, file_answer, extension_shown, extension_answer};
ghost use Rattle.extension.specs.Listing.{no_span};
ghost use Rattle.pieces.specs.Pieces.{taken_of};
ghost use Rattle.piece_reader.specs.Answer.{answer_of};
ghost use Rattle.piece_answers.specs.Answers.{taken_answer};

use answers::{ExtensionAnswer, FileAnswer};
use extension::{LIMIT, Span};
use header::Header;
use pieces::Pieces;
use refusal::Rule;
use rules::Image;

// What a piece answers: 25, with the state as it was handed in; or the state with the piece.
#[repr(C)]
#[derive(Clone, Copy)]
pub struct TakenAnswer {
    pub refusal: u64,
    pub place: u64,
    pub pieces: Pieces,
}

#[tactic(auto, unfolding(crate::specs::Answers::taken_answer))]
pub fn taken_answer(pieces: Pieces, piece: &[u8]) -> TakenAnswer
    ensures { result ≡ taken_answer (taken_of pieces piece.now) }
{
    let mut answer = TakenAnswer {
        refusal: 0,
        place: 0,
        pieces,
    };
    if let Err(r) = answer.pieces.take(piece) {
        answer.refusal = r.number();
        answer.place = r.place as u64;
    }
    answer
}

// What a record shows of its file.
fn shown_file(header: Header, image: Image) -> FileAnswer
    requires { header.count ≤ extension_limit }
    ensures { result ≡ shown_file header image }
{
    let dim = header.dim;
    let step = header.sizes.steps;
    FileAnswer {
        refusal: 0,
        place: 0,
        data_offset: image.offset,
        data_bytes: image.bytes,
        big_endian: header.order as u32,
        pair: header.kind as u32,
        dim,
        datatype: header.intent.datatype,
        bitpix: header.intent.bitpix,
        extensions: header.count as u32,
        step,
        aligned: u32::from(header.aligned),
    }
}

// What the bytes so far are, as a file.
#[tactic(auto, unfolding(answers::specs::Answers::file_answer))]
pub fn file_answer(pieces: Pieces) -> FileAnswer
    ensures { result ≡ file_answer (answer_of pieces) }
{
    let reading = piece_reader::answer(pieces);
    match reading.verdict {
        Ok(()) => shown_file(reading.header, reading.image),
        Err(r) => r.into(),
    }
}

// One of a record's extensions; 18 past the last.
fn shown_extension(count: usize, spans: [Span; LIMIT], number: u64) -> ExtensionAnswer
    requires { count ≤ extension_limit }
    ensures { result ≡ extension_shown count (get_or spans number no_span) number }
{
    if count as u64 <= number {
        return Rule::NoSuchExtension.at(0).into();
    }
    let x = spans[number as usize];
    ExtensionAnswer {
        refusal: 0,
        place: 0,
        start: x.start as u64,
        size: x.size,
        code: x.code,
    }
}

// One extension of the bytes so far.
#[tactic(auto, unfolding(answers::specs::Answers::extension_answer))]
pub fn extension_answer(pieces: Pieces, number: u64) -> ExtensionAnswer
    ensures { result ≡ extension_answer (answer_of pieces) number }
{
    let reading = piece_reader::answer(pieces);
    match reading.verdict {
        Ok(()) => shown_extension(reading.header.count, reading.header.spans, number),
        Err(r) => r.into(),
    }
}
