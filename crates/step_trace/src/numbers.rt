//! Numbers as the texts write them.

ghost use Rattle.std.specs.Prelude.{◌≡◌, ◌≢◌, ◌<◌, ◌^◌, ℕ, IfSome, IfNone, decimal};

/// The number that a field writes: decimal digits of a `u64`, with no sign, and with no leading zero
/// but in `0` itself. None if the field is anything else.
pub fn read_number(field: &[u8]) -> Option<u64>
    ensures some { IfSome result (λ n. field.now ≡ decimal n) }
    ensures none { IfNone result ((n : ℕ) → n < 2 ^ 64 → field.now ≢ decimal n) }
{
    if field.len() == 0 {
        return None;
    }
    if field[0] == b'0' && field.len() > 1 {
        return None;
    }
    let mut number = 0u64;
    for byte in field {
        if !byte.is_ascii_digit() {
            return None;
        }
        number = number
            .checked_mul(10)?
            .checked_add(u64::from(*byte - b'0'))?;
    }
    Some(number)
}
