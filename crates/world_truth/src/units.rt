ghost use Rattle.std.specs.Prelude.{◌≡◌, ℕ, ◌+◌, ◌*◌, min, map, length};
ghost use Rattle.fol_core.specs.Size.{total};
ghost use Rattle.world_truth.specs.Work.{units};

use fol_core::Sent;
use worlds::{World, block_count};

/// The units of work of the sentence in the world, as far as the type counts: one for each form of sentence in it, and at
/// a quantifier those of its part once for each block. It takes no memory.
pub fn work(w: &World, s: &Sent) -> u64
    ensures value { result ≡ min (units (length w.now) s.now) 18446744073709551615 }
{
    units_of(s, u64::from(block_count(w)))
}

#[cycle(units)]
fn units_of(s: &Sent, count: u64) -> u64
    ensures value { result ≡ min (units count s.now) 18446744073709551615 }
{
    match s {
        Sent::Atom(_, _) | Sent::Eq(_, _) | Sent::Bottom => 1,
        Sent::Not(a) => units_of(a.get(), count).saturating_add(1),
        Sent::And(parts) | Sent::Or(parts) => units_of_all(parts.as_slice(), count).saturating_add(
            1,
        ),
        Sent::If(a, b) | Sent::Iff(a, b) => {
            let left = units_of(a.get(), count);
            let right = units_of(b.get(), count);
            left.saturating_add(right).saturating_add(1)
        }
        Sent::All(_, a) | Sent::Ex(_, a) => repeated(units_of(a.get(), count), count),
    }
}

/// The units of a quantifier whose part has these units.
fn repeated(units: u64, count: u64) -> u64
    ensures value { (n : ℕ) → units ≡ min n 18446744073709551615 → result ≡ min (1 + count * n) 18446744073709551615 }
{
    units.saturating_mul(count).saturating_add(1)
}

#[cycle(units)]
fn units_of_all(parts: &[Sent], count: u64) -> u64
    ensures value { result ≡ min (total (map (units count) parts.now)) 18446744073709551615 }
{
    let mut total: u64 = 0;
    for part in parts {
        total = total.saturating_add(units_of(part, count));
    }
    total
}
