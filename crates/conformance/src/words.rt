// The words of a request: parted by one space each, numbers in plain decimal, bytes in lower-case hexadecimal.
use hex::FromHexError;
use std::alloc::{AllocError, Global};

// A number of at most nine digits, with no zero in front of others.
pub fn read_number(word: &str) -> Option<u32> {
    let plain = word.len() <= 9 && word.bytes().all(|b| b.is_ascii_digit());
    let shortest = word == "0" || !word.starts_with('0');
    if plain && shortest {
        word.parse().ok()
    } else {
        None
    }
}

// A number that a member can have in a record; larger ones are no request.
pub fn read_member(word: &str) -> Option<u16> {
    u16::try_from(read_number(word)?).ok()
}

// The bytes of a word in hexadecimal, `-` for none.
pub fn decode_hex(heap: Global, word: &str) -> Result<Option<Vec<u8>>, AllocError> {
    if word == "-" {
        return Ok(Some(Vec::new(heap)));
    }
    // the library reads capitals too, and makes room before it looks at a digit
    let plain = word.bytes().all(|b| matches!(b, b'0'..=b'9' | b'a'..=b'f'));
    if word.is_empty() || word.len() % 2 != 0 || !plain {
        return Ok(None);
    }
    match hex::decode(heap, word) {
        Ok(bytes) => Ok(Some(bytes)),
        Err(FromHexError::OutOfMemory) => Err(AllocError),
        Err(_) => Ok(None),
    }
}
