// Reads the NIfTI-1 file that is on standard input, of any length, for the programs that take one: at most 256 bytes are read at a time, and
// none is kept but what the piece reader keeps (02-change-requests.md, P1). No contract says what a read brings.
#![tactic(auto)]

use pieces::Pieces;
use reader::Reading;
use std::io;
use std::io::Read;

// What reading the file answers. A read that fails is not the end of the file.
pub fn read_input(rt: &impl Input) -> io::Result<Reading> {
    let mut pieces = Pieces::start();
    let mut buffer = [0u8; 256];
    let mut input = rt.reader();
    loop {
        let n = input.read(&mut buffer)?;
        if n == 0 {
            return Ok(piece_reader::answer(pieces));
        }
        if let Err(refusal) = pieces.take(&buffer[..n]) {
            return Ok(reader::refused(refusal));
        }
    }
}
