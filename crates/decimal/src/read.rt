// The number that a field holds.
ghost use Rattle.std.specs.Prelude.{◌≡◌};
ghost use Rattle.decimal.specs.Number.{plain, digits_of, number_of};

#[tactic(auto, using(crate::specs::Number::plain_cases))]
fn is_plain(field: &[u8]) -> bool
    ensures { result ≡ plain field.now }
{
    if field.len() == 0 {
        return false;
    }
    field.len() == 1 || field[0] != b'0'
}

// It stops at the first byte that is no digit and as soon as the value is too great, since more digits only add to it.
#[tactic(auto, using(crate::specs::Number::read_cases))]
fn read_digits(field: &[u8]) -> Option<u32>
    ensures { result ≡ digits_of field.now }
{
    let mut value: u64 = 0;
    for &b in field {
        if b < b'0' || b'9' < b {
            return None;
        }
        value = 10 * value + u64::from(b - b'0');
        if 4294967295 < value {
            return None;
        }
    }
    Some(value as u32)
}

// A decimal u32 without leading zeros; none where the bytes are anything else.
#[tactic(auto, using(crate::specs::Number::number_cases))]
pub fn read_number(field: &[u8]) -> Option<u32>
    ensures { result ≡ number_of field.now }
{
    if is_plain(field) {
        return read_digits(field);
    }
    None
}
