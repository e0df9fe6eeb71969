//! To what a call is made.

ghost use Rattle.std.specs.Prelude.{◌≡◌};
ghost use Rattle.value_text.specs.Readers.{Finds};
ghost use Rattle.command_text.specs.Reading.{is_application_digit};
ghost use Rattle.per_words.specs.Words.{application_digit, place_in};

/// The digit of an application, alone.
pub(crate) fn application_digit(target: &[u8]) -> Option<u8>
    ensures { result ≡ application_digit target.now }
{
    let (digit, rest) = target.split_first()?;
    (rest.is_empty() && is_application_digit(*digit)).then_some(*digit)
}

/// The digit of an application and a storage, with a colon between them.
pub(crate) fn place_in(target: &[u8]) -> Option<(u8, &[u8])>
    ensures { Finds (λ place. (place.0, place.1.now)) result (place_in target.now) }
{
    let (digit, rest) = target.split_first()?;
    let (colon, storage) = rest.split_first()?;
    if is_application_digit(*digit) && *colon == b':' {
        Some((*digit, storage))
    } else {
        None
    }
}

/// Whether the byte is the digit of an application.
fn is_application_digit(byte: u8) -> bool
    ensures { result ≡ is_application_digit byte }
{
    byte >= b'0' && byte <= b'7'
}
