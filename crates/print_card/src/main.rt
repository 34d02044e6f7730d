// Prints the slice card of the NIfTI-1 file that is on standard input, of any length, or its refusal (02-change-requests.md, P14).
#![tactic(auto)]

use reader::Reading;
use std::io;

// The longest card has 32,767 lines of at most 12 bytes each, and `padded 0`.
fn print_card(rt: &impl Print, reading: Reading) -> io::Result<()> {
    let mut text = [0u8; 393216];
    match slice_card::card_of(reading, &mut text) {
        Ok(n) => listing_print::put(rt, &text[..n]),
        Err(refusal) => listing_print::put_refusal(rt, refusal),
    }
}

// A read that fails is not the end of the file: no card is printed then.
fn main(rt: HostRuntime) -> io::Result<()> {
    let Ok(reading) = piece_input::read_input(&rt) else {
        return listing_print::put(&rt, b"read failed\n");
    };
    print_card(&rt, reading)
}
