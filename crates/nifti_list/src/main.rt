// Lists the NIfTI-1 file that is on standard input (01-scope.md, "Numbers on each side"). What a file is, the reader
// says; here it is only printed.
#![tactic(auto)]

use std::io;

// The longest file that is listed.
const LONGEST: usize = 65536;

fn main(rt: HostRuntime) -> io::Result<()> {
    // One byte more than is listed tells that the input is longer.
    let mut buffer = [0u8; LONGEST + 1];
    let n = read_input::read_full(&rt, &mut buffer)?;
    if LONGEST < n {
        return println!(rt; "too long");
    }
    listing_print::put_reading(&rt, reader::read(&buffer[..n]))
}
