//! One record.

ghost use Rattle.std.specs.Prelude.{◌≡◌, ◌+◌, ◌^◌, ◌<◌, ◌≤◌, map, length, drop, if◌then◌else◌, nat_lt, slice_set};
ghost use Rattle.record.specs.Bytes.{piece_of};
ghost use Rattle.record.specs.Cut.{Within, answer, cut_record, placed};
ghost use Rattle.record.specs.Rfc4180.{RecordAnswer};

use crate::fields::Rest;
use crate::{Cut, Field, FieldEnd, TextFault};

/// Puts a field at its place, where there is one.
fn store<'a>(fields: &mut [Field<'a>], place: usize, field: Field<'a>)
    ensures { fields.new ≡ (if nat_lt place (length fields.old) then slice_set fields.old place field.entry else fields.old) }
{
    // An index, since what a slice's `get_mut` lends leaves nothing known of the elements.
    if place < fields.len() {
        fields[place] = field;
    }
}

/// The record that stands first.
fn first_record<'a>(script: Rest<'a>, fields: &mut [Field<'a>]) -> Result<Cut, TextFault>
    ensures answers { result ≡ answer (cut_record script.entry.bytes.now script.entry.at) }
    ensures holds { map piece_of fields.new ≡ placed (cut_record script.entry.bytes.now script.entry.at).pieces (map piece_of fields.old) }
    ensures rfc { RecordAnswer script.entry.at script.entry.bytes.now (map piece_of fields.old) (map piece_of fields.new) result }
    ensures within { Within script.entry.at script.entry.bytes.now result }
{
    let mut left = script;

    // Counts past the places too, so it is no index over them; and a loop, as a field's end says whether to go on.
    let mut count = 0;
    loop {
        let cut = left.first_field()?;
        store(fields, count, cut.field);
        count += 1;
        match cut.end {
            FieldEnd::Comma => {
                left = Rest {
                    bytes: cut.rest,
                    at: cut.next,
                };
            }
            FieldEnd::Last(end) => return Ok(Cut {
                fields: count,
                end,
                next: cut.next,
            }),
        }
    }
}

/// Cuts one record off the script, from an offset on, and puts its fields where there is room for them.
// The places are lent, since nothing here has a heap.
pub fn cut_record<'a>(
    script: &'a [u8],
    start: usize,
    fields: &mut [Field<'a>],
) -> Result<Cut, TextFault>
    ensures answers { result ≡ answer (cut_record (drop start script.now) start) }
    ensures holds { map piece_of fields.new ≡ placed (cut_record (drop start script.now) start).pieces (map piece_of fields.old) }
    ensures rfc { RecordAnswer start (drop start script.now) (map piece_of fields.old) (map piece_of fields.new) result }
    ensures within { Within start (drop start script.now) result }
{
    first_record(Rest::of(script, start), fields)
}
