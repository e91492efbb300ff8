ghost use Rattle.std.specs.Prelude.{◌≡◌};
ghost use Rattle.currency_base.specs.Number.{int_of};

/// The number that an optional minus and one or more ASCII digits write; zeros may lead. `None` exactly
/// where the bytes are not such a text, or the number does not fit 64 signed bits.
pub fn read_int(bytes: &[u8]) -> Option<i64>
    ensures { result ≡ int_of bytes.now }
{
    if !bytes.is_empty() && bytes[0] == b'+' {
        return None;
    }
    match std::str::from_utf8(bytes) {
        Ok(text) => text.parse::<i64>().ok(),
        Err(_) => None,
    }
}
