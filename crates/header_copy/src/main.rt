// Copies a header: takes the record of the file on standard input and writes the 348 bytes that the record states
// (01-scope.md, "The writer takes any record"). Of a refused file, or one longer than 65536 bytes, it writes nothing.
#![tactic(auto)]

use std::io;

const LONGEST: usize = 65536;

fn copy(rt: &impl Print, file: &[u8]) -> io::Result<()> {
    let reading = reader::read(file);
    if reading.verdict.is_err() {
        return Ok(());
    }
    let mut front = [0u8; 348];
    let _ = writer::write(reading.header, &mut front);
    rt.write_all(&front)
}

fn main(rt: HostRuntime) -> io::Result<()> {
    // One byte more than is taken tells that the input is longer.
    let mut buffer = [0u8; LONGEST + 1];
    let n = read_input::read_full(&rt, &mut buffer)?;
    if LONGEST < n {
        return Ok(());
    }
    copy(&rt, &buffer[..n])
}
