// The sixteen datatypes: "Datatype, bits, swap unit in bytes" of 01-scope.md, with the codes of source document 002.
#![tactic(auto)]

ghost use Rattle.std.specs.Prelude.{◌≡◌, Some};
ghost use Rattle.datatype.specs.Datatypes.{datatype_of};

// How a voxel is stored: its bits, as bitpix states them, its bytes, and the swap unit, that is how many bytes are
// turned round together when the byte order changes.
#[derive(Clone, Copy)]
pub struct Format {
    pub bits: i16,
    pub bytes: u64,
    pub unit: usize,
}

fn known(bits: i16, bytes: u64, unit: usize) -> Option<Format>
    ensures { result ≡ Some (record { bits = bits; bytes = bytes; unit = unit }) }
{
    Some(Format { bits, bytes, unit })
}

// The format of a datatype code. Every number but the sixteen is unknown.
pub fn datatype_of(code: i16) -> Option<Format>
    ensures { result ≡ datatype_of code }
{
    match code {
        2 => known(8, 1, 1),
        4 => known(16, 2, 2),
        8 => known(32, 4, 4),
        16 => known(32, 4, 4),
        32 => known(64, 8, 4),
        64 => known(64, 8, 8),
        128 => known(24, 3, 1),
        256 => known(8, 1, 1),
        512 => known(16, 2, 2),
        768 => known(32, 4, 4),
        1024 => known(64, 8, 8),
        1280 => known(64, 8, 8),
        1536 => known(128, 16, 16),
        1792 => known(128, 16, 8),
        2048 => known(256, 32, 16),
        2304 => known(32, 4, 1),
        _ => None,
    }
}
