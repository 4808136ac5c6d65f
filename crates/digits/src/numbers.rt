//! Reads digits as a number or as bytes.

ghost use Rattle.std.specs.Prelude.{◌≡◌, ◌∷◌, [], length, map, is_some, IsTrue, IfSome};
ghost use Rattle.std.specs.List.{list_all};
ghost use Rattle.std.specs.Option.{option_map, unwrap_or};
ghost use Rattle.digits.specs.Numbers.{decimal_after, decimal, up_to, octet_of, byte_of, hexadecimal, laid};

/// `n` with one more digit, if that is at most `most`.
fn with_digit(n: u64, digit: u8, most: u64) -> Option<u64>
    ensures { result ≡ up_to most (decimal_after n (digit ∷ [])) }
{
    let digit = char::from(digit).to_digit(10)?;
    let next = n.checked_mul(10)?.checked_add(u64::from(digit))?;
    (next <= most).then_some(next)
}

/// The number that `text` writes in decimal digits, if it is one of at most `most`.
pub fn decimal(text: &[u8], most: u64) -> Option<u64>
    ensures { result ≡ up_to most (decimal text.now) }
{
    if text.is_empty() {
        return None;
    }
    let mut n = 0;
    for digit in text {
        n = with_digit(n, *digit, most)?;
    }
    Some(n)
}

/// The byte that two hexadecimal digits write.
fn octet(digits: &[u8; 2]) -> Option<u8>
    ensures { result ≡ octet_of digits.now }
{
    let [high, low] = *digits;
    let high = char::from(high).to_digit(16)?;
    let low = char::from(low).to_digit(16)?;
    Some((high * 16 + low) as u8)
}

/// Whether each pair is one of hexadecimal digits.
fn are_octets(pairs: &[[u8; 2]]) -> bool
    ensures { result ≡ list_all (λ pair. is_some (octet_of pair)) pairs.now }
{
    pairs.iter().all(|pair| octet(pair).is_some())
}

/// The pairs that `text` is made of, if each is one of hexadecimal digits.
fn digit_pairs(text: &[u8]) -> Option<&[[u8; 2]]>
    ensures bytes { option_map (λ pairs. map byte_of pairs.now) result ≡ hexadecimal text.now }
    ensures all { IfSome result (λ pairs. IsTrue (list_all (λ pair. is_some (octet_of pair)) pairs.now)) }
{
    match text.as_chunks::<2>() {
        (pairs, []) if are_octets(pairs) => Some(pairs),
        _ => None,
    }
}

/// Writes the bytes of the pairs to the front of `out`, as many as fit.
fn lay(pairs: &[[u8; 2]], out: &mut [u8])
    requires { IsTrue (list_all (λ pair. is_some (octet_of pair)) pairs.now) }
    ensures { out.new ≡ laid (map byte_of pairs.now) out.old }
{
    // By index, since after `out.iter_mut().zip(pairs)` a proof knows nothing of what was written.
    for i in 0..out.len().min(pairs.len()) {
        out[i] = octet(&pairs[i]).unwrap();
    }
}

/// How many bytes `text` writes in hexadecimal, with as many of them as fit written to the front of `out`; none,
/// and nothing written, where it is not hexadecimal.
pub fn hexadecimal(text: &[u8], out: &mut [u8]) -> Option<usize>
    ensures count { result ≡ option_map length (hexadecimal text.now) }
    ensures written { out.new ≡ laid (unwrap_or (hexadecimal text.now) []) out.old }
{
    let pairs = digit_pairs(text)?;
    lay(pairs, out);
    Some(pairs.len())
}
