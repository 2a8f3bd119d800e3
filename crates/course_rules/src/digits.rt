ghost use Rattle.std.specs.Prelude.{◌≡◌, ◌<◌, IfSome};
ghost use Rattle.course_rules.specs.Digits as written;

/// The number that two digits write; none where they aren't both digits.
pub(crate) fn two_digits(tens: u8, ones: u8) -> Option<u8>
    ensures value { result ≡ written.two_digits tens ones }
    ensures small { IfSome result (λ n. n < 100) }
{
    if tens.is_ascii_digit() && ones.is_ascii_digit() {
        Some((tens - b'0') * 10 + (ones - b'0'))
    } else {
        None
    }
}
