//! Numbers as a script writes them.
ghost use Rattle.std.specs.Prelude.{◌≡◌, ◌≤◌, length, if◌then◌else◌, Some, None};
ghost use Rattle.script.specs.Numbers.{Reads, numeral, read_digits, shaped};
ghost use Rattle.std.specs.Str.{all_ascii_digits};

/// The number that the digits write, or none where another byte is among them.
#[tactic(auto, using(crate::proofs::Digits::reading_room))]
fn read_digits(text: &[u8]) -> Option<u64>
    requires { length text.now ≤ 15 }
    ensures { result ≡ (if all_ascii_digits text.now then Some (read_digits 0 text.now) else None) }
{
    // A loop: `try_fold` was tried, and the proof that no turn of its closure overflows did not close.
    let mut number = 0;
    for b in text {
        if !b.is_ascii_digit() {
            return None;
        }
        number = number * 10 + u64::from(*b - b'0');
    }
    Some(number)
}

/// Whether a text is as long as a number may be, and has no leading zero.
fn is_shaped(text: &[u8]) -> bool
    ensures { result ≡ shaped text.now }
{
    match text {
        [] => false,
        [b'0', _, ..] => false,
        _ => text.len() <= 15,
    }
}

/// The number that a text writes: 1 to 15 digits, and no leading zero but in 0 itself.
pub fn number(text: &[u8]) -> Option<u64>
    ensures is { result ≡ numeral text.now }
    ensures reads { Reads text.now result }
{
    if is_shaped(text) {
        read_digits(text)
    } else {
        None
    }
}
