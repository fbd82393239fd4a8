// The numbers that texts spell.
ghost use Rattle.std.specs.Prelude.{◌≡◌};
ghost use Rattle.text.specs.Spelled.{spelled, with_byte};

// The number with a digit behind it, where it stays below 2^32.
#[tactic(auto, unfolding(crate::specs::Spelled::with_byte))]
fn with_digit(value: u32, byte: u8) -> Option<u32>
    ensures { result ≡ with_byte value byte }
{
    let digit = match byte {
        b'0'..=b'9' => byte - b'0',
        _ => return None,
    };
    value.checked_mul(10)?.checked_add(digit as u32)
}

// The number below 2^32 that a text spells: digits alone, with or without zeros in front.
#[tactic(auto, using(crate::proofs::Digits::no_more, crate::proofs::Digits::one_more, crate::proofs::Digits::at_end), unfolding(crate::specs::Spelled::spelled))]
pub fn number_of(text: &[u8]) -> Option<u32>
    ensures { result ≡ spelled text.now }
{
    if text.is_empty() {
        return None;
    }
    let mut value = 0;
    for byte in text {
        value = with_digit(value, *byte)?;
    }
    Some(value)
}
