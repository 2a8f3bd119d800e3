ghost use Rattle.std.specs.Prelude.{◌≡◌, ◌≤◌, ◌<◌, ◌+◌, ◌^◌, ◌%◌, ℕ};
ghost use Rattle.bit_sets.specs.BitSets.{has};
ghost use Rattle.taut_con.specs.Rows.{letter_in_row as value_in_row};

use bit_sets::BitSet;

/// The value of a letter, counted from 1, in a row, counted from 1, of a table of so many letters.
#[tactic(auto, using(crate::proofs::Encoding::first_block))]
pub fn letter_in_row(letters: u32, row: u32, letter: u32) -> bool
    ensures value { result ≡ value_in_row letters row letter }
{
    let block = letters.saturating_sub(letter);
    block > 31 || (row.saturating_sub(1) >> block) % 2 == 0
}

/// The rows in which the letter, counted from 1, is true, of the 64 from row `base` on of a table of so many letters.
#[tactic(auto, using(crate::proofs::Patterns::in_word_0, crate::proofs::Patterns::in_word_1, crate::proofs::Patterns::in_word_2, crate::proofs::Patterns::in_word_3, crate::proofs::Patterns::in_word_4, crate::proofs::Patterns::in_word_5))]
pub(crate) fn letter_word(letters: u32, base: u32, letter: u32) -> BitSet
    requires aligned { base % 64 ≡ 1 }
    ensures value { (k : ℕ) → k < 64 → has result.bits k ≡ value_in_row letters (base + k) letter }
{
    match letters.saturating_sub(letter) {
        0 => BitSet {
            bits: 0x5555_5555_5555_5555,
        },
        1 => BitSet {
            bits: 0x3333_3333_3333_3333,
        },
        2 => BitSet {
            bits: 0x0f0f_0f0f_0f0f_0f0f,
        },
        3 => BitSet {
            bits: 0x00ff_00ff_00ff_00ff,
        },
        4 => BitSet {
            bits: 0x0000_ffff_0000_ffff,
        },
        5 => BitSet {
            bits: 0x0000_0000_ffff_ffff,
        },
        _ => BitSet::all_or_none(letter_in_row(letters, base, letter)),
    }
}

/// How many rows a table of so many letters has.
#[tactic(auto, using(crate::proofs::Patterns::few_rows))]
pub(crate) fn row_count(letters: u32) -> u32
    requires few { letters ≤ 16 }
    ensures value { result ≡ 2 ^ letters }
    ensures most { result ≤ 65536 }
{
    1 << letters
}
