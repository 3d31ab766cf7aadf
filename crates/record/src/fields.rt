//! One field, plain or quoted.

ghost use Rattle.std.specs.Prelude.{◌≡◌, ◌+◌, ◌-◌, ◌^◌, ◌<◌, ◌≤◌, ◌≢◌, length, take, drop, slice_index, MatchOption};
ghost use Rattle.record.specs.Bytes.{piece_of, textdata};
ghost use Rattle.record.specs.Cut.{closed, cut_field, inside, onwards, plain_field, quoted_field, seen, text_step};
ghost use Rattle.record.specs.Rfc4180.{FieldAnswer};
ghost use Rattle.std.specs.List.{prefix_len};

use crate::{Field, FieldCut, FieldEnd, RecordEnd, TextFault};

/// What is left of a script: its bytes, and the offset where they begin.
#[derive(Clone, Copy)]
pub(crate) struct Rest<'a> {
    pub(crate) bytes: &'a [u8],
    pub(crate) at: usize,
    ghost fits: { at + length bytes.now < 2 ^ 64 },
}

/// Whether a byte is text outside quotes.
fn is_text(b: u8) -> bool
    ensures { result ≡ textdata b }
{
    !matches!(b, b',' | b'"' | 13 | 10)
}

/// How many bytes of text stand first.
fn plain_length(bytes: &[u8]) -> usize
    ensures is { result ≡ prefix_len textdata bytes.now }
    ensures within { result ≤ length bytes.now }
{
    // Cutting may take no more instructions a byte: `position` and `take_while` with `count` were tried, and take two more.
    for (i, b) in bytes.iter().enumerate() {
        if !is_text(*b) {
            return i;
        }
    }
    bytes.len()
}

/// The bytes behind the next piece of text between quotes: behind one byte, or behind a doubled quote.
/// None at the closing quote and at the end.
fn past_text(bytes: &[u8]) -> Option<&[u8]>
    ensures { MatchOption result (text_step bytes.now ≡ 0) (λ more. (more.now ≡ onwards (text_step bytes.now) bytes.now) × (0 < text_step bytes.now)) }
{
    match bytes {
        [b'"', b'"', more @ ..] => Some(more),
        [b'"', ..] => None,
        [_, more @ ..] => Some(more),
        [] => None,
    }
}

/// How many bytes of text stand first between quotes.
fn quoted_length(bytes: &[u8]) -> usize
    ensures is { result ≡ inside bytes.now }
    ensures within { result ≤ length bytes.now }
{
    let mut rest = bytes;
    while let Some(more) = past_text(rest) {
        rest = more;
    }
    bytes.len() - rest.len()
}

impl<'a> Rest<'a> {
    /// What is left of a script from an offset on: no byte where it lies past the end.
    pub(crate) fn of(script: &'a [u8], start: usize) -> Self
        ensures bytes { result.bytes.now ≡ drop start script.now }
        ensures at { result.at ≡ start }
    {
        Rest {
            bytes: &script[start.min(script.len())..],
            at: start,
        }
    }

    /// The first bytes, and what is left behind them.
    fn split_at(self, count: usize) -> (&'a [u8], Self)
        requires { count ≤ length self.bytes.now }
        ensures first { result.0.now ≡ take count self.entry.bytes.now }
        ensures behind { result.1.bytes.now ≡ drop count self.entry.bytes.now }
        ensures at { result.1.at ≡ self.entry.at + count }
    {
        let (first, bytes) = self.bytes.split_at(count);
        (
            first,
            Rest {
                bytes,
                at: self.at + count,
            },
        )
    }

    /// What is left behind a quote, where one stands first.
    fn behind_quote(self) -> Option<Self>
        ensures { MatchOption result (slice_index self.entry.bytes.now 0 ≢ 34) (λ more. (more.bytes.now ≡ onwards 1 self.entry.bytes.now) × (more.at ≡ self.entry.at + 1) × (slice_index self.entry.bytes.now 0 ≡ 34)) }
    {
        match self.bytes {
            [b'"', bytes @ ..] => Some(Rest {
                bytes,
                at: self.at + 1,
            }),
            _ => None,
        }
    }

    /// What ends a field, plain or quoted alike, by the bytes behind it.
    fn close(self, field: Field<'a>) -> Result<FieldCut<'a>, TextFault>
        ensures { seen result ≡ closed (piece_of field.entry) self.entry.bytes.now self.entry.at }
    {
        let Rest { bytes, at } = self;
        match bytes {
            [b',', rest @ ..] => Ok(FieldCut {
                field,
                end: FieldEnd::Comma,
                rest,
                next: at + 1,
            }),
            [13, 10, rest @ ..] => Ok(FieldCut {
                field,
                end: FieldEnd::Last(RecordEnd::CrLf),
                rest,
                next: at + 2,
            }),
            [] => Ok(FieldCut {
                field,
                end: FieldEnd::Last(RecordEnd::Script),
                rest: bytes,
                next: at,
            }),
            [_, ..] => Err(TextFault { at }),
        }
    }

    /// A field with no quotes.
    fn plain_field(self) -> Result<FieldCut<'a>, TextFault>
        ensures { seen result ≡ plain_field self.entry.bytes.now self.entry.at (prefix_len textdata self.entry.bytes.now) }
    {
        let (text, behind) = self.split_at(plain_length(self.bytes));
        behind.close(Field { text, at: self.at })
    }

    /// A field in quotes, from behind its opening quote on, which stands at an offset.
    fn quoted_field(self, at: usize) -> Result<FieldCut<'a>, TextFault>
        requires { self.at ≡ at + 1 }
        ensures { seen result ≡ quoted_field self.entry.bytes.now at (inside self.entry.bytes.now) }
    {
        let (text, closing) = self.split_at(quoted_length(self.bytes));
        let behind = closing.behind_quote().ok_or(TextFault { at })?;
        behind.close(Field { text, at })
    }

    /// The field that stands first.
    pub(crate) fn first_field(self) -> Result<FieldCut<'a>, TextFault>
        ensures answers { seen result ≡ cut_field self.entry.bytes.now self.entry.at }
        ensures rfc { FieldAnswer self.entry.at self.entry.bytes.now (seen result) }
    {
        match self.behind_quote() {
            Some(more) => more.quoted_field(self.at),
            None => self.plain_field(),
        }
    }
}

/// Cuts one field off the script, from an offset on.
pub fn cut_field<'a>(script: &'a [u8], start: usize) -> Result<FieldCut<'a>, TextFault>
    ensures answers { seen result ≡ cut_field (drop start script.now) start }
    ensures rfc { FieldAnswer start (drop start script.now) (seen result) }
{
    Rest::of(script, start).first_field()
}
