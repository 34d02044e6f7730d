// The record of a NIfTI-1 header: all 43 fields of source document 003, the unused ones too, every float by its 32
// bits, so that a NaN's payload survives (01-scope.md, "The record has all fields"). Grouped in file order; the dims,
// the extension spans, the image's sizes (02-change-requests.md, P4), whether the voxel offset is a multiple of 16 (P6), the
// byte order and the kind of file stand at the top.
#![tactic(auto)]

ghost use Rattle.std.specs.Prelude.{◌≡◌, ◌+◌, ◌<◌, ◌≤◌, length};
ghost use Rattle.field.specs.Numbers.{bytes_at, i16s_at};
ghost use Rattle.header.specs.Fields.{header_of, key_of, intent_of, scale_of, display_of, quatern_of, rows_of};

use extension::{LIMIT, Span};
use field::{Number, Order};
use grid::Sizes;

// A single file (magic n+1), or the header file of a pair (magic ni1).
#[derive(Clone, Copy)]
pub enum Kind {
    Single,
    Pair,
}

#[derive(Clone, Copy)]
pub struct Header {
    pub order: Order,
    pub kind: Kind,
    pub dim: [i16; 8],
    pub count: usize,
    pub spans: [Span; LIMIT],
    pub sizes: Sizes,
    pub aligned: bool,
    pub key: Key,
    pub intent: Intent,
    pub scale: Scale,
    pub display: Display,
    pub quatern: Quatern,
    pub rows: Rows,
}

// Header_key of nifti1.h, bytes 0..40.
#[derive(Clone, Copy)]
pub struct Key {
    pub sizeof_hdr: i32,
    pub data_type: [u8; 10],
    pub db_name: [u8; 18],
    pub extents: i32,
    pub session_error: i16,
    pub regular: u8,
    pub dim_info: u8,
}

// The rest of image_dimension up to the slices, bytes 56..76.
#[derive(Clone, Copy)]
pub struct Intent {
    pub intent_p1: u32,
    pub intent_p2: u32,
    pub intent_p3: u32,
    pub intent_code: i16,
    pub datatype: i16,
    pub bitpix: i16,
    pub slice_start: i16,
}

// Bytes 76..124.
#[derive(Clone, Copy)]
pub struct Scale {
    pub pixdim: [u32; 8],
    pub vox_offset: u32,
    pub scl_slope: u32,
    pub scl_inter: u32,
    pub slice_end: i16,
    pub slice_code: u8,
    pub xyzt_units: u8,
}

// Bytes 124..252.
#[derive(Clone, Copy)]
pub struct Display {
    pub cal_max: u32,
    pub cal_min: u32,
    pub slice_duration: u32,
    pub toffset: u32,
    pub glmax: i32,
    pub glmin: i32,
    pub descrip: [u8; 80],
    pub aux_file: [u8; 24],
}

// Bytes 252..280.
#[derive(Clone, Copy)]
pub struct Quatern {
    pub qform_code: i16,
    pub sform_code: i16,
    pub quatern_b: u32,
    pub quatern_c: u32,
    pub quatern_d: u32,
    pub qoffset_x: u32,
    pub qoffset_y: u32,
    pub qoffset_z: u32,
}

// Bytes 280..348.
#[derive(Clone, Copy)]
pub struct Rows {
    pub srow_x: [u32; 4],
    pub srow_y: [u32; 4],
    pub srow_z: [u32; 4],
    pub intent_name: [u8; 16],
    pub magic: [u8; 4],
}

// The text of a field.
fn text<const N: usize>(file: &[u8], at: usize) -> [u8; N]
    requires { at + N < 4294967296 }
    ensures { result ≡ bytes_at at N file.now }
{
    let mut out = [0u8; N];
    field::copy_out(file, at, &mut out);
    out
}

// dim, which is judged before the rest is read.
pub fn dims(file: &[u8], order: Order) -> [i16; 8]
    requires { 56 ≤ length file.now }
    ensures { result ≡ i16s_at order file.now 40 8 }
{
    field::numbers(file, 40, order)
}

// The groups, read in file order.
fn read_key(file: &[u8], order: Order) -> Key
    requires { 348 ≤ length file.now }
    ensures { result ≡ key_of order file.now }
{
    Key {
        sizeof_hdr: i32::read(file, 0, order),
        data_type: text(file, 4),
        db_name: text(file, 14),
        extents: i32::read(file, 32, order),
        session_error: i16::read(file, 36, order),
        regular: field::byte_at(file, 38),
        dim_info: field::byte_at(file, 39),
    }
}

fn read_intent(file: &[u8], order: Order) -> Intent
    requires { 348 ≤ length file.now }
    ensures { result ≡ intent_of order file.now }
{
    Intent {
        intent_p1: u32::read(file, 56, order),
        intent_p2: u32::read(file, 60, order),
        intent_p3: u32::read(file, 64, order),
        intent_code: i16::read(file, 68, order),
        datatype: i16::read(file, 70, order),
        bitpix: i16::read(file, 72, order),
        slice_start: i16::read(file, 74, order),
    }
}

fn read_scale(file: &[u8], order: Order) -> Scale
    requires { 348 ≤ length file.now }
    ensures { result ≡ scale_of order file.now }
{
    Scale {
        pixdim: field::numbers(file, 76, order),
        vox_offset: u32::read(file, 108, order),
        scl_slope: u32::read(file, 112, order),
        scl_inter: u32::read(file, 116, order),
        slice_end: i16::read(file, 120, order),
        slice_code: field::byte_at(file, 122),
        xyzt_units: field::byte_at(file, 123),
    }
}

fn read_display(file: &[u8], order: Order) -> Display
    requires { 348 ≤ length file.now }
    ensures { result ≡ display_of order file.now }
{
    Display {
        cal_max: u32::read(file, 124, order),
        cal_min: u32::read(file, 128, order),
        slice_duration: u32::read(file, 132, order),
        toffset: u32::read(file, 136, order),
        glmax: i32::read(file, 140, order),
        glmin: i32::read(file, 144, order),
        descrip: text(file, 148),
        aux_file: text(file, 228),
    }
}

fn read_quatern(file: &[u8], order: Order) -> Quatern
    requires { 348 ≤ length file.now }
    ensures { result ≡ quatern_of order file.now }
{
    Quatern {
        qform_code: i16::read(file, 252, order),
        sform_code: i16::read(file, 254, order),
        quatern_b: u32::read(file, 256, order),
        quatern_c: u32::read(file, 260, order),
        quatern_d: u32::read(file, 264, order),
        qoffset_x: u32::read(file, 268, order),
        qoffset_y: u32::read(file, 272, order),
        qoffset_z: u32::read(file, 276, order),
    }
}

fn read_rows(file: &[u8], order: Order) -> Rows
    requires { 348 ≤ length file.now }
    ensures { result ≡ rows_of order file.now }
{
    Rows {
        srow_x: field::numbers(file, 280, order),
        srow_y: field::numbers(file, 296, order),
        srow_z: field::numbers(file, 312, order),
        intent_name: text(file, 328),
        magic: text(file, 344),
    }
}

// All of a record that the bytes state: its sizes and its aligned fact are not among them.
#[tactic(auto, unfolding(crate::specs::Fields::header_of))]
fn parse_front(front: &[u8], order: Order, kind: Kind, count: usize, spans: [Span; LIMIT]) -> Header
    requires { 348 ≤ length front.now }
    ensures { result ≡ header_of order kind count spans front.now }
{
    Header {
        order,
        kind,
        dim: dims(front, order),
        count,
        spans,
        sizes: Sizes {
            total: 0,
            steps: [0u64; 7],
        },
        aligned: false,
        key: read_key(front, order),
        intent: read_intent(front, order),
        scale: read_scale(front, order),
        display: read_display(front, order),
        quatern: read_quatern(front, order),
        rows: read_rows(front, order),
    }
}

// The record of a file's first 348 bytes, with what is known of it beside them. Past the end there are zeros, so that
// an empty file's record is all zero: the bytes are copied first, and each field then lies inside.
pub fn parse(file: &[u8], order: Order, kind: Kind, count: usize, spans: [Span; LIMIT]) -> Header
    ensures { result ≡ header_of order kind count spans file.now }
{
    let mut front = [0u8; 348];
    field::copy_out(file, 0, &mut front);
    parse_front(&front, order, kind, count, spans)
}
