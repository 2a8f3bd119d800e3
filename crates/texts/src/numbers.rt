ghost use Rattle.std.specs.Prelude.{ℕ, ◌↔◌, IsTrue, MatchOption};
ghost use Rattle.texts.specs.Numbers.{IsCount, MayCount};

/// The number from 1 to 9999 that the text writes in decimal digits without a leading zero; none where it writes none.
pub fn counting_number(text: &[u8]) -> Option<u32>
    ensures value { MatchOption result ((n : ℕ) → IsCount text.now n → ⊥) (IsCount text.now) }
{
    if !may_count(text) {
        return None;
    }
    let Ok(digits) = str::from_utf8(text) else {
        return None;
    };
    match digits.parse::<u32>() {
        Ok(number) => Some(number),
        Err(_) => None,
    }
}

fn may_count(text: &[u8]) -> bool
    ensures { IsTrue result ↔ MayCount text.now }
{
    match text {
        [] => false,
        [first, ..] => text.len() <= 4 && matches!(*first, b'1'..=b'9'),
    }
}
