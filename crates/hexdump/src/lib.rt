//! Bytes as a text shows them: hexadecimal digits, two to a byte.
#![tactic(auto)]

ghost use Rattle.std.specs.Prelude.{◌≡◌, IfOk};
ghost use Rattle.std.specs.List.{filter};
ghost use Rattle.hexdump.specs.Digits.{bytes_of, is_no_capital};

use std::alloc::{AllocError, Global};

#[cfg(test)]
mod tests;

/// The bytes that the hexadecimal digits of the text stand for, the high digit of each first. Other
/// characters, as the ends of lines, only divide; a last digit with none behind it stands for no byte.
pub fn from_hex(heap: Global, text: &[u8]) -> Result<Vec<u8>, AllocError>
    ensures { IfOk result (λ bytes. bytes.items ≡ bytes_of text.now) }
{
    let mut bytes = Vec::new(heap);
    let mut first = None;
    for character in text {
        let Some(digit) = char::from(*character).to_digit(16) else {
            continue;
        };
        match first {
            None => first = Some(digit),
            Some(high) => {
                bytes.push((high * 16 + digit) as u8)?;
                first = None;
            }
        }
    }
    Ok(bytes)
}

/// The bytes that the hexadecimal digits of the text stand for, where only small ones are digits: a capital divides, as every
/// other character does.
pub fn from_lowercase_hex(heap: Global, mut text: Vec<u8>) -> Result<Vec<u8>, AllocError>
    ensures { IfOk result (λ bytes. bytes.items ≡ bytes_of (filter is_no_capital text.items)) }
{
    text.retain(|character| !character.is_ascii_uppercase());
    from_hex(heap, &text)
}
