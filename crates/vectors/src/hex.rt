// Bytes in hexadecimal.
ghost use Rattle.std.specs.Prelude.{◌≡◌, ◌<◌, IfSome, IfOk, vec_items};
ghost use Rattle.std.specs.Option.{option_map};
ghost use Rattle.vectors.specs.Hex.{bytes_of, hex_byte, hex_digit};

use std::alloc::{AllocError, Global};

// The value of a digit.
fn hex_digit(b: u8) -> Option<u8>
    ensures value { result ≡ hex_digit b }
    ensures small { IfSome result (λ d. d < 16) }
{
    match b {
        b'0'..=b'9' => Some(b - b'0'),
        b'a'..=b'f' => Some(b - b'a' + 10),
        _ => None,
    }
}

// The byte of two digits, the high one first.
fn hex_byte(high: u8, low: u8) -> Option<u8>
    ensures { result ≡ hex_byte high low }
{
    let h = hex_digit(high)?;
    let l = hex_digit(low)?;
    Some(16 * h + l)
}

// The bytes that a text spells, if it spells any.
#[tactic(auto, using(crate::proofs::Spelled::odd, crate::proofs::Spelled::begun, crate::proofs::Spelled::again))]
pub fn bytes_of(heap: Global, text: &[u8]) -> Result<Option<Vec<u8>>, AllocError>
    ensures { IfOk result (λ o. option_map vec_items o ≡ bytes_of text.now) }
{
    if text.len() % 2 != 0 {
        return Ok(None);
    }
    let (pairs, _) = text.as_chunks::<2>();
    let mut bytes = Vec::new(heap);
    for [high, low] in pairs {
        let Some(byte) = hex_byte(*high, *low) else {
            return Ok(None);
        };
        bytes.push(byte)?;
    }
    Ok(Some(bytes))
}
