//! Bytes, numbers and fields, each behind what is written already.

ghost use Rattle.std.specs.Prelude.{◌≡◌, ◌-◌, [], ◌∷◌, length, decimal, nat_le};
ghost use Rattle.trace.specs.Appending.{Adds};
ghost use Rattle.trace.specs.Records.{field, fields_record};

use crate::Trace;
use itoa::Buffer;

impl<'a> Trace<'a> {
    /// How many bytes are left.
    pub fn room(&self) -> usize
        ensures { result ≡ length self.now.bytes.now - self.now.used }
    {
        self.bytes.len().saturating_sub(self.used)
    }

    /// Whether no byte is left.
    fn is_full(&self) -> bool
        ensures { result ≡ nat_le (length self.now.bytes.now) self.now.used }
    {
        self.used >= self.bytes.len()
    }

    /// Adds a byte where there is room.
    fn byte(&mut self, b: u8)
        ensures { Adds self.old (b ∷ []) self.new }
    {
        // An index, since what a slice's `get_mut` lends leaves nothing known of the elements.
        if !self.is_full() {
            self.bytes[self.used] = b;
            self.used += 1;
        }
    }

    /// Adds bytes, as far as there is room.
    fn all(&mut self, bytes: &[u8])
        ensures { Adds self.old bytes.now self.new }
    {
        for b in bytes {
            self.byte(*b);
        }
    }

    /// Adds a number in decimal digits.
    fn decimal(&mut self, n: u64)
        ensures { Adds self.old (decimal n) self.new }
    {
        // One digit is written at once: itoa fills a buffer, which costs a short number more than its digit.
        if n < 10 {
            self.byte(b'0' + n as u8);
        } else {
            self.all(Buffer::new().format(n).as_bytes());
        }
    }

    /// Adds a comma and a field behind it: a number, or nothing.
    fn field(&mut self, n: Option<u64>)
        ensures { Adds self.old (44 ∷ field n) self.new }
    {
        self.byte(b',');
        if let Some(n) = n {
            self.decimal(n);
        }
    }

    /// Adds the fields of a record behind its first, and CR LF.
    fn fields(&mut self, b: Option<u64>, c: Option<u64>, d: Option<u64>)
        ensures { Adds self.old (fields_record [] (field b) (field c) (field d)) self.new }
    {
        self.field(b);
        self.field(c);
        self.field(d);
        self.byte(b'\r');
        self.byte(b'\n');
    }

    /// Adds a record that begins with two numbers.
    pub(crate) fn numbered(&mut self, a: u64, b: u64, c: Option<u64>, d: Option<u64>)
        ensures { Adds self.old (fields_record (decimal a) (decimal b) (field c) (field d)) self.new }
    {
        self.decimal(a);
        self.fields(Some(b), c, d);
    }

    /// Adds a record that begins with a letter, before three numbers.
    pub(crate) fn lettered(&mut self, letter: u8, b: u64, c: u64, d: u64)
        ensures { Adds self.old (fields_record (letter ∷ []) (decimal b) (decimal c) (decimal d)) self.new }
    {
        self.byte(letter);
        self.fields(Some(b), Some(c), Some(d));
    }
}
