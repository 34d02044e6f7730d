// A record's 348 bytes, stored at the front of a buffer. 01-scope.md: the writer "writes 348 and the kind's magic, and
// doesn't read the spans"; all other fields are written as the record has them.
#![tactic(auto)]

ghost use Rattle.std.specs.Prelude.{◌≡◌};
ghost use Rattle.std.proofs.lemmas.List.Edits.{sets};
ghost use Rattle.encode.specs.Encode.{encode, key_bytes, intent_bytes, scale_bytes, display_bytes, quatern_bytes};
ghost use Rattle.encode.specs.Encode.{rows_bytes};

use field::Order;
use header::{Display, Header, Intent, Key, Kind, Quatern, Rows, Scale};

// The groups, written in file order.
fn write_key(g: Key, order: Order, buf: &mut [u8])
    ensures { buf.new ≡ sets buf.old 0 (key_bytes order g) }
{
    magic::put_size(buf, order);
    store::put_bytes(buf, 4, 10, &g.data_type);
    store::put_bytes(buf, 14, 18, &g.db_name);
    store::put(buf, 32, order, g.extents);
    store::put(buf, 36, order, g.session_error);
    store::put_byte(buf, 38, g.regular);
    store::put_byte(buf, 39, g.dim_info);
}

fn write_intent(g: Intent, order: Order, buf: &mut [u8])
    ensures { buf.new ≡ sets buf.old 56 (intent_bytes order g) }
{
    store::put(buf, 56, order, g.intent_p1);
    store::put(buf, 60, order, g.intent_p2);
    store::put(buf, 64, order, g.intent_p3);
    store::put(buf, 68, order, g.intent_code);
    store::put(buf, 70, order, g.datatype);
    store::put(buf, 72, order, g.bitpix);
    store::put(buf, 74, order, g.slice_start);
}

fn write_scale(g: Scale, order: Order, buf: &mut [u8])
    ensures { buf.new ≡ sets buf.old 76 (scale_bytes order g) }
{
    store::put_numbers(buf, 76, order, 8, &g.pixdim);
    store::put(buf, 108, order, g.vox_offset);
    store::put(buf, 112, order, g.scl_slope);
    store::put(buf, 116, order, g.scl_inter);
    store::put(buf, 120, order, g.slice_end);
    store::put_byte(buf, 122, g.slice_code);
    store::put_byte(buf, 123, g.xyzt_units);
}

fn write_display(g: Display, order: Order, buf: &mut [u8])
    ensures { buf.new ≡ sets buf.old 124 (display_bytes order g) }
{
    store::put(buf, 124, order, g.cal_max);
    store::put(buf, 128, order, g.cal_min);
    store::put(buf, 132, order, g.slice_duration);
    store::put(buf, 136, order, g.toffset);
    store::put(buf, 140, order, g.glmax);
    store::put(buf, 144, order, g.glmin);
    store::put_bytes(buf, 148, 80, &g.descrip);
    store::put_bytes(buf, 228, 24, &g.aux_file);
}

fn write_quatern(g: Quatern, order: Order, buf: &mut [u8])
    ensures { buf.new ≡ sets buf.old 252 (quatern_bytes order g) }
{
    store::put(buf, 252, order, g.qform_code);
    store::put(buf, 254, order, g.sform_code);
    store::put(buf, 256, order, g.quatern_b);
    store::put(buf, 260, order, g.quatern_c);
    store::put(buf, 264, order, g.quatern_d);
    store::put(buf, 268, order, g.qoffset_x);
    store::put(buf, 272, order, g.qoffset_y);
    store::put(buf, 276, order, g.qoffset_z);
}

fn write_rows(g: Rows, order: Order, kind: Kind, buf: &mut [u8])
    ensures { buf.new ≡ sets buf.old 280 (rows_bytes order kind g) }
{
    store::put_numbers(buf, 280, order, 4, &g.srow_x);
    store::put_numbers(buf, 296, order, 4, &g.srow_y);
    store::put_numbers(buf, 312, order, 4, &g.srow_z);
    store::put_bytes(buf, 328, 16, &g.intent_name);
    magic::put_magic(buf, kind);
}

// The whole header, in the record's own byte order.
pub fn write_header(h: Header, buf: &mut [u8])
    ensures { buf.new ≡ sets buf.old 0 (encode h) }
{
    write_key(h.key, h.order, buf);
    store::put_numbers(buf, 40, h.order, 8, &h.dim);
    write_intent(h.intent, h.order, buf);
    write_scale(h.scale, h.order, buf);
    write_display(h.display, h.order, buf);
    write_quatern(h.quatern, h.order, buf);
    write_rows(h.rows, h.order, h.kind, buf);
}
