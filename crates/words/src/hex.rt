// Reads the bytes that a word of hexadecimal digits spells.
ghost use Rattle.std.specs.Prelude.{◌≡◌, ◌<◌, IfSome, IfOk, vec_items};
ghost use Rattle.std.specs.Option.{option_map};
ghost use Rattle.words.specs.Hex.{hex_digit, hex_byte, hex_bytes};

use std::alloc::{AllocError, Global};

fn hex_digit(byte: u8) -> Option<u8>
    ensures answer { result ≡ hex_digit byte }
    ensures small { IfSome result (λ digit. digit < 16) }
{
    match byte {
        b'0'..=b'9' => Some(byte - b'0'),
        b'A'..=b'F' => Some(byte - b'A' + 10),
        b'a'..=b'f' => Some(byte - b'a' + 10),
        _ => None,
    }
}

fn hex_byte(high: u8, low: u8) -> Option<u8>
    ensures answer { result ≡ hex_byte high low }
{
    let high = hex_digit(high)?;
    let low = hex_digit(low)?;
    Some(high * 16 + low)
}

// No bytes where the word spells none: why, and at which place of the line, is for the caller to say.
pub(crate) fn hex_bytes(heap: Global, word: &[u8]) -> Result<Option<Vec<u8>>, AllocError>
    ensures answer { IfOk result (λ read. option_map vec_items read ≡ hex_bytes word.now) }
{
    // An odd number of digits spells nothing, and asks for no memory.
    if word.len() % 2 != 0 {
        return Ok(None);
    }
    let mut bytes = Vec::new(heap);
    let mut digits = word;
    while let [high, low, more @ ..] = digits {
        let Some(byte) = hex_byte(*high, *low) else {
            return Ok(None);
        };
        bytes.push(byte)?;
        digits = more;
    }
    Ok(digits.is_empty().then_some(bytes))
}
