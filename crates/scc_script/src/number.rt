//! Reads a number of decimal digits.
ghost use Rattle.std.specs.Prelude.{◌≡◌};
ghost use Rattle.scc_script.specs.Grammar.{number_of};

/// Returns the number that `field` is written for: one or more ASCII digits and nothing else. Leading zeros are
/// allowed.
///
/// Returns `None` if `field` has no digit, has another byte, or stands for more than the greatest `u64`.
pub fn parse_number(field: &[u8]) -> Option<u64>
    ensures { result ≡ number_of field.now }
{
    if field.is_empty() {
        return None;
    }
    let mut value: u64 = 0;
    for byte in field {
        if !byte.is_ascii_digit() {
            return None;
        }
        value = value.checked_mul(10)?.checked_add(u64::from(*byte - b'0'))?;
    }
    Some(value)
}
