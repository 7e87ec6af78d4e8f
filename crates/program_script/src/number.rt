//! Numbers and bytes of a script's words.
ghost use Rattle.std.specs.Prelude.{◌≡◌, ◌≢◌, ◌<◌, ◌≤◌, ◌-◌, ◌^◌, ℕ, IfSome, IfNone};
ghost use Rattle.std.specs.Char.{IsAsciiDigit};
ghost use Rattle.program_script.specs.Numeral.{IsNumeral, decimal, hex_digit, hex_text};

/// The number that a word of decimal digits is, leading zeros allowed. None where it is no such word, or the number is
/// above the largest.
pub fn number(word: &[u8], largest: u64) -> Option<u64>
    ensures some { IfSome result (λ n. IsNumeral word.now × (n ≡ decimal word.now) × (n ≤ largest)) }
    ensures none { IfNone result (IsNumeral word.now → largest < decimal word.now) }
{
    if word.is_empty() {
        return None;
    }
    let mut number = 0u64;
    for byte in word {
        let digit = digit(*byte)?;
        number = number.checked_mul(10)?.checked_add(digit)?;
    }
    if number <= largest {
        Some(number)
    } else {
        None
    }
}

fn digit(byte: u8) -> Option<u64>
    ensures some { IfSome result (λ n. IsAsciiDigit byte × (n ≡ byte - 48)) }
    ensures none { IfNone result (¬ IsAsciiDigit byte) }
{
    if byte.is_ascii_digit() {
        Some(u64::from(byte - b'0'))
    } else {
        None
    }
}

/// The number of a word, up to 2^32 - 1.
pub fn small(word: &[u8]) -> Option<u32>
    ensures some { IfSome result (λ n. IsNumeral word.now × (n ≡ decimal word.now)) }
    ensures none { IfNone result (IsNumeral word.now → 2 ^ 32 ≤ decimal word.now) }
{
    match number(word, 0xffff_ffff) {
        Some(number) => Some(number as u32),
        None => None,
    }
}

/// The byte that a word of two lower case hexadecimal digits is.
pub fn byte(word: &[u8]) -> Option<u8>
    ensures some { IfSome result (λ b. word.now ≡ hex_text b) }
    ensures none { IfNone result ((b : ℕ) → b < 256 → word.now ≢ hex_text b) }
{
    match word {
        [high, low] => Some(16 * hex_digit(*high)? + hex_digit(*low)?),
        _ => None,
    }
}

fn hex_digit(byte: u8) -> Option<u8>
    ensures some { IfSome result (λ n. (n < 16) × (byte ≡ hex_digit n)) }
    ensures none { IfNone result ((n : ℕ) → n < 16 → byte ≢ hex_digit n) }
{
    if b'0' <= byte && byte <= b'9' {
        Some(byte - b'0')
    } else if b'a' <= byte && byte <= b'f' {
        Some(byte - b'a' + 10)
    } else {
        None
    }
}
