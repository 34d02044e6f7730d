// Lists the NIfTI-1 file that is on standard input, of any length, as it comes: at most 256 bytes are read at a time, and
// none is kept but what the piece reader keeps (02-change-requests.md, P1).
#![tactic(auto)]

use std::io;

// Where a read fails, nothing is listed.
fn main(rt: HostRuntime) -> io::Result<()> {
    match piece_input::read_input(&rt) {
        Ok(reading) => listing_print::put_reading(&rt, reading),
        Err(_) => println!(rt; "read failed"),
    }
}
