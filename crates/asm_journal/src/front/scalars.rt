//! Words, whole numbers and texts at the front of a text.
ghost use Rattle.std.specs.Prelude.{◌≡◌, ◌<◌, ◌^◌, ◌++◌, ◌∷◌, All, true, decimal, IfSome};
ghost use Rattle.std.specs.Fmt.{signed_decimal};
ghost use Rattle.json.specs.Run.{is_plain};
ghost use Rattle.json.specs.Print.{quoted};
ghost use Rattle.asm_journal.specs.Shape.{IsNumberForm, BeginsAs};

/// Return the rest of the text behind the word, if it begins with the word.
#[tactic(auto, using(crate::proofs::Compact::stripped))]
pub(crate) fn behind<'t>(text: &'t [u8], word: &[u8]) -> Option<&'t [u8]>
    ensures { IfSome result (λ rest. text.now ≡ word.now ++ rest.now) }
{
    text.strip_prefix(word)
}

/// Return the whole number whose digits the text begins with, and the rest.
///
/// The digits are decimal, and the number is below 2 to the power of 63.
pub(crate) fn digits(text: &[u8]) -> Option<(u64, &[u8])>
    ensures text { IfSome result (λ p. text.now ≡ decimal p.0 ++ p.1.now) }
    ensures small { IfSome result (λ p. p.0 < 2 ^ 63) }
{
    let (first, mut rest) = text.split_first()?;
    if *first == b'0' {
        return Some((0, rest));
    }
    if !first.is_ascii_digit() {
        return None;
    }
    let mut value = u64::from(*first - b'0');
    'digits: loop {
        let Some((next, more)) = rest.split_first() else {
            return Some((value, rest));
        };
        if !next.is_ascii_digit() {
            return Some((value, rest));
        }
        if value >= 900_000_000_000_000_000 {
            return None;
        }
        value = value * 10 + u64::from(*next - b'0');
        rest = more;
    }
}

/// Return the whole number that the text begins with, and the rest of the text.
pub(crate) fn integer(text: &[u8]) -> Option<(i64, &[u8])>
    ensures { IfSome result (λ p. text.now ≡ signed_decimal p.0 ++ p.1.now) }
{
    if let Some(rest) = behind(text, b"-") {
        let (value, rest) = digits(rest)?;
        if value == 0 {
            return None;
        }
        return Some((-(value as i64), rest));
    }
    let (value, rest) = digits(text)?;
    Some((value as i64, rest))
}

/// Return whether the byte in quotes means itself, and doesn't end the text.
pub(crate) fn is_own(byte: u8) -> bool
    ensures { result ≡ is_plain byte }
{
    byte >= 32 && byte != b'"' && byte != b'\\'
}

/// Return the bytes before the first quote and those after it.
///
/// Each byte before it must mean itself.
fn before_quote(text: &[u8]) -> Option<(&[u8], &[u8])>
    ensures text { IfSome result (λ p. text.now ≡ p.0.now ++ 34 ∷ p.1.now) }
    ensures plain { IfSome result (λ p. All (λ b. is_plain b ≡ true) p.0.now) }
{
    let end = text.iter().position(|b| !is_own(*b))?;
    if text[end] == b'"' {
        Some((&text[..end], &text[end + 1..]))
    } else {
        None
    }
}

/// Return the text in quotes that the text begins with, and the rest of the text.
pub(crate) fn quoted_text(text: &[u8]) -> Option<(&str, &[u8])>
    ensures { IfSome result (λ p. text.now ≡ quoted p.0.now ++ p.1.now) }
{
    let inside = behind(text, b"\"")?;
    let (front, rest) = before_quote(inside)?;
    match str::from_utf8(front) {
        Ok(front) => Some((front, rest)),
        Err(_) => None,
    }
}

/// Return the whole number that the text begins with, and the rest of the text.
///
/// It is from 0 to 4,294,967,295.
pub(crate) fn number(text: &[u8]) -> Option<(u32, &[u8])>
    ensures { IfSome result (λ p. BeginsAs IsNumberForm text.now p.0 p.1.now) }
{
    let (value, rest) = digits(text)?;
    match u32::try_from(value) {
        Ok(found) => Some((found, rest)),
        Err(_) => None,
    }
}
