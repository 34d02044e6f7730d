// The console's C interface: numbers and byte pointers in, structs of numbers back by value (01-scope.md, "The
// console's old C program calls the library with numbers and byte pointers"). A thin layer: each export asks one call
// of the library and puts its answer into a struct of the crate answers.
#![tactic(auto)]

ghost use Rattle.std.specs.Prelude.{◌≡◌, [], ◌∷◌, pos, length};
ghost use Rattle.reader.specs.Reading.{reading_of};
ghost use Rattle.by_file.specs.Files.{located_of};
ghost use Rattle.slice_position.specs.Files.{slice_of, ranked_of, position_at};
ghost use Rattle.byteswap.specs.Swap.{swap_answer, swapped_file, swapped_image};
ghost use Rattle.change.specs.declared.Change.TheVariants.{Append, Replace, Remove};
ghost use Rattle.edit.specs.Outcome.{outcome_of, edit_answer, buffer_after};
ghost use Rattle.line.specs.Lines.{line_answer, line_out};
ghost use Rattle.answers.specs.Answers.{voxel_reply, swap_reply, line_reply, edit_reply, file_answer, extension_answer, slice_answer};
ghost use Rattle.answers.specs.Answers.{ranked_answer, position_answer};
ghost use Rattle.voxel_answers.specs.Answers.{voxel_in};
ghost use Rattle.pieces.specs.Pieces.{fresh, taken_of};
ghost use Rattle.piece_reader.specs.Answer.{answer_of};
ghost use Rattle.piece_answers.specs.Answers.{taken_answer};
ghost use Rattle.turn.specs.Turned.{turn_answer, turned_out, turned_out_image};
ghost use Rattle.turn_answers.specs.Answers.{turn_of, turned_answer};

use answers::{ExtensionAnswer, FileAnswer, PositionAnswer, RankedAnswer, Reply, SliceAnswer};
use line_copy::{Steps, Voxels};
use piece_answers::TakenAnswer;
use pieces::Pieces;
use turn_answers::TurnedAnswer;
use turning::{Singly, Together};

// Reads a file: what it shows of the record, or the refusal, 1 to 15.
#[unsafe(no_mangle)]
pub extern "C" fn vestumbral_read(file: &[u8]) -> FileAnswer
    ensures { result ≡ file_answer (reading_of file.now) }
{
    match outline::outline_of(file, 0) {
        Err(r) => r.into(),
        Ok(o) => answers::shown_file(file, o),
    }
}

// One extension of a file, the first is 0: 1 to 15, then 18.
#[unsafe(no_mangle)]
pub extern "C" fn vestumbral_extension_at(file: &[u8], number: u64) -> ExtensionAnswer
    ensures { result ≡ extension_answer (reading_of file.now) number }
{
    match outline::outline_of(file, number as usize) {
        Err(r) => r.into(),
        Ok(o) => answers::shown_extension(o, number as usize),
    }
}

// A voxel's place and length, in the file (single) or in the image file (pair): 1 to 15, 16 for a pair, then 17.
#[unsafe(no_mangle)]
pub extern "C" fn vestumbral_voxel(
    file: &[u8],
    image: &[u8],
    i1: u64,
    i2: u64,
    i3: u64,
    i4: u64,
    i5: u64,
    i6: u64,
    i7: u64,
) -> Reply
    ensures { result ≡ voxel_reply (located_of file.now image.now
        (i1 ∷ i2 ∷ i3 ∷ i4 ∷ i5 ∷ i6 ∷ i7 ∷ [])) }
{
    by_file::locate(file, image, [i1, i2, i3, i4, i5, i6, i7]).into()
}

// The same of a file that was read before, by what vestumbral_read or vestumbral_pieces_file answered: the file is not read, and no dims are
// multiplied. The struct's own refusal, then 2, 9, 16 for a pair, 17, 26.
#[unsafe(no_mangle)]
pub extern "C" fn vestumbral_voxel_in(
    file: FileAnswer,
    image_len: u64,
    i1: u64,
    i2: u64,
    i3: u64,
    i4: u64,
    i5: u64,
    i6: u64,
    i7: u64,
) -> Reply
    ensures { result ≡ voxel_in file image_len (i1 ∷ i2 ∷ i3 ∷ i4 ∷ i5 ∷ i6 ∷ i7 ∷ []) }
{
    if file.refusal != 0 {
        return voxel_answers::own_refusal(file.refusal, file.place);
    }
    let offset = file.data_offset;
    let total = file.data_bytes;
    let kind = voxel_answers::kind_by(file.pair);
    let len = image_len as usize;
    let index = [i1, i2, i3, i4, i5, i6, i7];
    voxel::locate_at(&file.dim, offset, total, &file.step, kind, len, &index).into()
}

// A slice's state, rank and time: 1 to 15, then 17.
#[unsafe(no_mangle)]
pub extern "C" fn vestumbral_slice_at(file: &[u8], slice: u64) -> SliceAnswer
    ensures { result ≡ slice_answer (slice_of file.now slice) }
{
    slice_position::slice_at(file, slice).into()
}

// The slice of a rank: 1 to 15, then 17 where timing is stated.
#[unsafe(no_mangle)]
pub extern "C" fn vestumbral_slice_of_rank(file: &[u8], rank: u64) -> RankedAnswer
    ensures { result ≡ ranked_answer (ranked_of file.now rank) }
{
    slice_position::slice_of_rank(file, rank).into()
}

// A position by Method 3: 1 to 15, 17, then 23.
#[unsafe(no_mangle)]
pub extern "C" fn vestumbral_position_of(file: &[u8], i: u64, j: u64, k: u64) -> PositionAnswer
    ensures { result ≡ position_answer (position_at file.now i j k) }
{
    slice_position::position_of(file, i, j, k).into()
}

// Swaps the byte order of a file, and of a pair's image file, in place: 1 to 15, 16 for a pair.
#[unsafe(no_mangle)]
pub extern "C" fn vestumbral_swap(file: &mut [u8], image: &mut [u8]) -> Reply
    ensures { (result ≡ swap_reply (swap_answer file.old image.old))
        × (file.new ≡ swapped_file file.old image.old)
        × (image.new ≡ swapped_image file.old image.old) }
{
    byteswap::swap::<Together>(file, image).into()
}

// The same answers and bytes as vestumbral_swap, unit by unit.
#[unsafe(no_mangle)]
pub extern "C" fn vestumbral_swap_by_unit(file: &mut [u8], image: &mut [u8]) -> Reply
    ensures { (result ≡ swap_reply (swap_answer file.old image.old))
        × (file.new ≡ swapped_file file.old image.old)
        × (image.new ≡ swapped_image file.old image.old) }
{
    byteswap::swap::<Singly>(file, image).into()
}

// Copies the voxels along an axis through a voxel into the front of a lent buffer: 1 to 15, 16 for a pair, 17, then 22.
#[unsafe(no_mangle)]
pub extern "C" fn vestumbral_line(
    file: &[u8],
    image: &[u8],
    axis: u64,
    i1: u64,
    i2: u64,
    i3: u64,
    i4: u64,
    i5: u64,
    i6: u64,
    i7: u64,
    out: &mut [u8],
) -> Reply
    ensures { (result ≡ line_reply (line_answer file.now image.now axis
        (i1 ∷ i2 ∷ i3 ∷ i4 ∷ i5 ∷ i6 ∷ i7 ∷ []) (length out.old)))
        × (out.new ≡ line_out file.now image.now axis
        (i1 ∷ i2 ∷ i3 ∷ i4 ∷ i5 ∷ i6 ∷ i7 ∷ []) out.old) }
{
    line::line::<Steps>(file, image, axis, [i1, i2, i3, i4, i5, i6, i7], out).into()
}

// The same answers and bytes as vestumbral_line, each voxel located by itself.
#[unsafe(no_mangle)]
pub extern "C" fn vestumbral_line_by_voxel(
    file: &[u8],
    image: &[u8],
    axis: u64,
    i1: u64,
    i2: u64,
    i3: u64,
    i4: u64,
    i5: u64,
    i6: u64,
    i7: u64,
    out: &mut [u8],
) -> Reply
    ensures { (result ≡ line_reply (line_answer file.now image.now axis
        (i1 ∷ i2 ∷ i3 ∷ i4 ∷ i5 ∷ i6 ∷ i7 ∷ []) (length out.old)))
        × (out.new ≡ line_out file.now image.now axis
        (i1 ∷ i2 ∷ i3 ∷ i4 ∷ i5 ∷ i6 ∷ i7 ∷ []) out.old) }
{
    line::line::<Voxels>(file, image, axis, [i1, i2, i3, i4, i5, i6, i7], out).into()
}

// Turns a volume into the fronts of two lent buffers, of which the second is for a pair's image file: 1 to 15, 16 for a pair,
// 29, 30, 23, 22.
#[unsafe(no_mangle)]
pub extern "C" fn vestumbral_turn(
    file: &[u8],
    image: &[u8],
    axis1: u64,
    axis2: u64,
    axis3: u64,
    reverse1: u64,
    reverse2: u64,
    reverse3: u64,
    out: &mut [u8],
    out_image: &mut [u8],
) -> TurnedAnswer
    ensures answer { result ≡ turned_answer (turn_answer file.now image.now
        (turn_of axis1 axis2 axis3 reverse1 reverse2 reverse3) (length out.old) (length out_image.old)) }
    ensures content { out.new ≡ turned_out file.now image.now
        (turn_of axis1 axis2 axis3 reverse1 reverse2 reverse3) out.old out_image.old }
    ensures image { out_image.new ≡ turned_out_image file.now image.now
        (turn_of axis1 axis2 axis3 reverse1 reverse2 reverse3) out.old out_image.old }
{
    let t = turn_answers::turn_of(axis1, axis2, axis3, reverse1, reverse2, reverse3);
    turn::turn(file, image, t, out, out_image).into()
}

// Edits of a file's extensions in place; the file is the buffer's first `file_len` bytes: 24, 1 to 15, then 18 to 22.
#[unsafe(no_mangle)]
pub extern "C" fn vestumbral_append(
    buffer: &mut [u8],
    file_len: u64,
    code: i32,
    payload: &[u8],
) -> Reply
    ensures answer { result ≡ edit_reply (edit_answer (outcome_of buffer.old file_len Append code payload.now)) }
    ensures content { buffer.new ≡ buffer_after buffer.old file_len
        (outcome_of buffer.old file_len Append code payload.now) }
{
    edit::append(buffer, file_len as usize, code, payload).into()
}

#[unsafe(no_mangle)]
pub extern "C" fn vestumbral_replace(
    buffer: &mut [u8],
    file_len: u64,
    number: u64,
    code: i32,
    payload: &[u8],
) -> Reply
    ensures answer { result ≡ edit_reply (edit_answer
        (outcome_of buffer.old file_len (Replace number) code payload.now)) }
    ensures content { buffer.new ≡ buffer_after buffer.old file_len
        (outcome_of buffer.old file_len (Replace number) code payload.now) }
{
    edit::replace(buffer, file_len as usize, number as usize, code, payload).into()
}

#[unsafe(no_mangle)]
pub extern "C" fn vestumbral_remove(buffer: &mut [u8], file_len: u64, number: u64) -> Reply
    ensures answer { result ≡ edit_reply (edit_answer (outcome_of buffer.old file_len (Remove number) (pos 0) [])) }
    ensures content { buffer.new ≡ buffer_after buffer.old file_len
        (outcome_of buffer.old file_len (Remove number) (pos 0) []) }
{
    edit::remove(buffer, file_len as usize, number as usize).into()
}

// A file that comes in pieces: the state before the first one.
#[unsafe(no_mangle)]
pub extern "C" fn vestumbral_pieces_start() -> Pieces
    ensures { result ≡ fresh }
{
    Pieces::start()
}

// The state with a piece; or 25, and the state as it was handed in.
#[unsafe(no_mangle)]
pub extern "C" fn vestumbral_pieces_take(pieces: Pieces, piece: &[u8]) -> TakenAnswer
    ensures { result ≡ taken_answer (taken_of pieces piece.now) }
{
    piece_answers::taken_answer(pieces, piece)
}

// What vestumbral_read answers of the bytes so far: 1 to 15.
#[unsafe(no_mangle)]
pub extern "C" fn vestumbral_pieces_file(pieces: Pieces) -> FileAnswer
    ensures { result ≡ file_answer (answer_of pieces) }
{
    piece_answers::file_answer(pieces)
}

// What vestumbral_extension_at answers of them: 1 to 15, then 18.
#[unsafe(no_mangle)]
pub extern "C" fn vestumbral_pieces_extension_at(pieces: Pieces, number: u64) -> ExtensionAnswer
    ensures { result ≡ extension_answer (answer_of pieces) number }
{
    piece_answers::extension_answer(pieces, number)
}
