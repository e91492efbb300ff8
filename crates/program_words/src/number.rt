ghost use Rattle.std.specs.Prelude.{◌≡◌, None, Some, if◌then◌else◌, nat_le, option_and_then, option_map};
ghost use Rattle.program_words.specs.Numbers.{number_if_given, number_or, number_up_to};
ghost use Rattle.program_words.specs.Words.{unit_in};

/// The number from 1 to `most` that the text writes in decimal digits, with neither a sign nor a zero in front.
pub(crate) fn number_up_to(text: &str, most: u64) -> Option<u64>
    ensures { result ≡ number_up_to most text.now }
{
    let bytes = text.as_bytes();
    if bytes.is_empty() || bytes[0] <= b'0' {
        return None;
    }
    match text.parse::<u64>() {
        Ok(number) => at_most(number, most),
        Err(_) => None,
    }
}

fn at_most(number: u64, most: u64) -> Option<u64>
    ensures { result ≡ (if nat_le number most then Some number else None) }
{
    if number <= most { Some(number) } else { None }
}

/// The number of an option that is `default` where the option isn't given. `None` where it is given and wrong.
pub(crate) fn number_or(default: u64, most: u64, text: Option<&str>) -> Option<u64>
    ensures { result ≡ number_or default most (option_map (λ s. s.now) text.entry) }
{
    match text {
        Some(text) => number_up_to(text, most),
        None => Some(default),
    }
}

/// The number of an option that may be left out. `None` where it is given and wrong.
pub(crate) fn number_if_given(most: u64, text: Option<&str>) -> Option<Option<u64>>
    ensures { result ≡ number_if_given most (option_map (λ s. s.now) text.entry) }
{
    match text {
        Some(text) => match number_up_to(text, most) {
            Some(number) => Some(Some(number)),
            None => None,
        },
        None => Some(None),
    }
}

/// The number of a unit. `None` where it isn't given, and where it is wrong.
pub(crate) fn unit_in(text: Option<&str>) -> Option<u32>
    ensures { result ≡ option_and_then unit_in (option_map (λ s. s.now) text.entry) }
{
    match text {
        Some(text) => match number_up_to(text, 4_294_967_295) {
            Some(number) => Some(number as u32),
            None => None,
        },
        None => None,
    }
}
