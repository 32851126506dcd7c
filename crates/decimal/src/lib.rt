// Numbers as bytes.
#![tactic(auto)]

ghost use Rattle.std.specs.Prelude.{◌≡◌, pos};
ghost use Rattle.std.specs.Option.{option_map};
ghost use Rattle.decimal.specs.Decimal.{positive, field_of};

// The value of at most nine digits, the first of them no 0.
#[tactic(auto, using(crate::proofs::Reading::refused, crate::proofs::Reading::worth_all, crate::proofs::Reading::worth_other))]
fn positive(s: &[u8]) -> Option<i32>
    ensures { result ≡ option_map pos (positive s.now) }
{
    if s.is_empty() || s[0] == b'0' || 9 < s.len() {
        return None;
    }
    let mut v: u32 = 0;
    for b in s {
        if !b.is_ascii_digit() {
            return None;
        }
        v = v * 10 + u32::from(*b - b'0');
    }
    Some(v as i32)
}

// The number that a field holds.
#[tactic(auto, using(crate::proofs::Reading::field_zero, crate::proofs::Reading::field_minus, crate::proofs::Reading::field_plain))]
pub fn number(field: &[u8]) -> Option<i32>
    ensures { result ≡ field_of field.now }
{
    match field {
        [b'0'] => Some(0),
        [b'-', digits @ ..] => Some(-positive(digits)?),
        _ => positive(field),
    }
}
