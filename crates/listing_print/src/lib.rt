// Prints what reading a file answered, as 01-scope.md lists it ("Numbers on each side") with the line that P6 of
// 02-change-requests.md adds, for the programs that list a file.
// What it prints is tested and not proved.
#![tactic(auto)]

use extension::{LIMIT, Span};
use field::Order;
use header::{Header, Kind};
use reader::Reading;
use refusal::Refusal;
use rules::Image;
use std::io;

pub fn put(rt: &impl Print, text: &[u8]) -> io::Result<()> {
    rt.write_all(text)
}

fn order_word(order: Order) -> &'static str {
    match order {
        Order::Little => "little",
        Order::Big => "big",
    }
}

fn kind_word(kind: Kind) -> &'static str {
    match kind {
        Kind::Single => "single",
        Kind::Pair => "pair",
    }
}

// dim[1] to dim[dim[0]].
fn put_dims(rt: &impl Print, dim: &[i16]) -> io::Result<()> {
    print!(rt; "dims")?;
    for i in 0..rules::axis_count(dim) {
        print!(rt; " {}", grid::axis_length(dim, i + 1))?;
    }
    println!(rt;)
}

// Signed numbers by their bits: none is negative in the record of an accepted file.
fn put_type(rt: &impl Print, datatype: i16, bitpix: i16) -> io::Result<()> {
    println!(rt;
        "type {} bits {}",
        datatype.cast_unsigned(),
        bitpix.cast_unsigned()
    )
}

fn put_extensions(rt: &impl Print, count: usize, spans: [Span; LIMIT]) -> io::Result<()> {
    println!(rt; "extensions {count}")?;
    for x in &spans[..count.min(LIMIT)] {
        println!(rt;
            "ext {} {} {}",
            x.start,
            x.size.cast_unsigned(),
            x.code.cast_unsigned()
        )?;
    }
    Ok(())
}

fn put_header(rt: &impl Print, header: Header, image: Image) -> io::Result<()> {
    println!(rt; "order {}", order_word(header.order))?;
    println!(rt; "kind {}", kind_word(header.kind))?;
    put_dims(rt, &header.dim)?;
    put_type(rt, header.intent.datatype, header.intent.bitpix)?;
    println!(rt; "data {} {}", image.offset, image.bytes)?;
    println!(rt; "aligned {}", if header.aligned { "yes" } else { "no" })?;
    put_extensions(rt, header.count, header.spans)
}

pub fn put_refusal(rt: &impl Print, refusal: Refusal) -> io::Result<()> {
    println!(rt; "{refusal}")
}

pub fn put_reading(rt: &impl Print, reading: Reading) -> io::Result<()> {
    match reading.verdict {
        Ok(()) => put_header(rt, reading.header, reading.image),
        Err(refusal) => put_refusal(rt, refusal),
    }
}
