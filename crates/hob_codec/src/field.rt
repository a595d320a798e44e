// Fields that are written one after another, and fields of a body.
ghost use Rattle.std.specs.Prelude.{◌≡◌, ◌≤◌, ◌+◌, ◌++◌, length, take};
ghost use Rattle.hob_codec.specs.{HobBytes.padding, HobBytes.padded_len, FieldView.all_bytes};

const ZEROS: [u8; 8] = [0; 8];

// Writes a field at a place.
pub(crate) fn put_field(out: &mut [u8], at: usize, field: &[u8])
    requires { at + length field.now ≤ length out.old }
    ensures { take (at + length field.now) out.new ≡ take at out.old ++ field.now }
{
    out[at..at + field.len()].copy_from_slice(field);
}

// Writes fields one after another from a place on.
pub(crate) fn put_fields(out: &mut [u8], from: usize, fields: &[&[u8]])
    requires { from + length (all_bytes fields.now) ≤ length out.old }
    ensures { take (from + length (all_bytes fields.now)) out.new ≡ take from out.old ++ all_bytes fields.now }
{
    let mut at = from;
    'fields: for field in fields {
        put_field(out, at, field);
        at += field.len();
    }
}

// The zeros after so many bytes of a body.
pub(crate) fn padding(len: usize) -> &'static [u8]
    requires { len ≤ 65528 }
    ensures { result.now ≡ padding len }
{
    &ZEROS[..(len + 7) / 8 * 8 - len]
}

// Writes a body with its zeros from a place to the end.
pub(crate) fn put_padded(out: &mut [u8], at: usize, body: &[u8])
    requires len { at + padded_len (length body.now) ≡ length out.old }
    requires most { length out.old ≤ 65528 }
    ensures { out.new ≡ take at out.old ++ (body.now ++ padding (length body.now)) }
{
    put_field(out, at, body);
    put_field(out, at + body.len(), padding(body.len()));
}
