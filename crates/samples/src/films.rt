// Films in hexadecimal.
ghost use Rattle.std.specs.Prelude.{◌≡◌, true, false, [], IfOk, MatchOption, MatchResult};
ghost use Rattle.hex.specs.Hex.{decode_of};
ghost use Rattle.samples.specs.Pairs.{WrittenFilm, in_pairs, stray};

use hex::FromHexError;
use std::alloc::{AllocError, Global};
use std::convert::AsSlice;

// The signs of a text that stand in pairs, where they are digits: one sign that is left alone at its end is passed over. None at the first other sign or capital letter, since films are written in small ones.
pub fn pairs(text: &str) -> Option<&[u8]>
    ensures digits_or_none { MatchOption result (stray text.now ≡ true) (λ p. (stray text.now ≡ false) × (p.now ≡ in_pairs text.now)) }
{
    let pairs = &text.as_bytes()[..text.len() / 2 * 2];
    if pairs.iter().any(|sign| sign.is_ascii_uppercase() || !sign.is_ascii_hexdigit()) {
        None
    } else {
        Some(pairs)
    }
}

// The bytes that pairs of digits stand for; none for another text, as - or a word.
pub fn film_of<T: AsSlice<u8> + Drop>(heap: Global, text: T) -> Result<Vec<u8>, AllocError>
    ensures bytes_or_none { IfOk result (λ film. MatchResult (decode_of (T.items text)) (λ bytes. film.items ≡ bytes) (λ _. film.items ≡ [])) }
{
    hex::decode(heap, text.as_slice()).or_else(|error| match error {
        FromHexError::OutOfMemory => Err(AllocError),
        _ => Ok(Vec::new(heap)),
    })
}

// A film as the cases write it: the bytes of its pairs of small digits; none for another text.
pub fn read_film(heap: Global, text: &str) -> Result<Vec<u8>, AllocError>
    ensures film_that_is_written { IfOk result (λ film. WrittenFilm text.now film.items) }
{
    match pairs(text) {
        Some(pairs) => film_of(heap, pairs),
        None => Ok(Vec::new(heap)),
    }
}

#[cfg(test)]
mod tests {
    use super::*;

    // A single sign at the end is passed over; capitals, words and other signs are no film.
    #[test]
    fn films_are_read_as_cases_write_them(rt: HostRuntime) {
        let heap = rt.alloc();
        let none: &[u8] = &[];
        let cases: [(&str, &[u8]); 11] = [
            ("01000aff", &[1, 0, 10, 255]),
            ("01000affz", &[1, 0, 10, 255]),
            ("01000aff ", &[1, 0, 10, 255]),
            ("01000affA", &[1, 0, 10, 255]),
            ("01000Aff", none),
            ("0100g0ff", none),
            ("missing", none),
            ("-", none),
            ("", none),
            ("a", none),
            ("01é", none),
        ];
        for (text, bytes) in cases {
            let film = read_film(heap, text).expect(&rt, "memory");
            assert_eq!(rt; film.as_slice(), bytes);
        }
    }

    // The library's pairs, in either case of letters.
    #[test]
    fn digits_are_decoded(rt: HostRuntime) {
        let heap = rt.alloc();
        let film = film_of(heap, "01000Aff").expect(&rt, "memory");
        let bytes: &[u8] = &[1, 0, 10, 255];
        assert_eq!(rt; film.as_slice(), bytes);
        let film = film_of(heap, "010").expect(&rt, "memory");
        assert!(rt; film.is_empty());
    }
}
