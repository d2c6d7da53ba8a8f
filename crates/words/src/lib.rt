// Writing into a list: fill with zeros, put a few items, copy a run.
#![tactic(auto)]

ghost use Rattle.std.specs.Prelude.{◌≡◌, ◌+◌, ◌-◌, ◌≤◌, length, replicate};
ghost use Rattle.words.specs.Splice.{splice};

pub mod sums;

// Writes zeros to the places from `from` up to, not including, `to`.
#[tactic(auto, using(crate::proofs::Copies::part_filled))]
pub fn zero_fill(s: &mut [u32], from: usize, to: usize)
    requires { (from ≤ to) × (to ≤ length s.old) }
    ensures { s.new ≡ splice s.old from (replicate (to - from) 0) }
{
    s[from..to].fill(0);
}

// Writes N items from place `at` on.
#[tactic(auto, using(crate::proofs::Copies::part_written))]
pub fn put<T: Copy, const N: usize>(s: &mut [T], at: usize, items: [T; N])
    requires { at + N ≤ length s.old }
    ensures { s.new ≡ splice s.old at items }
{
    s[at..at + N].copy_from_slice(&items);
}

// Copies a list over another as long. A loop: the library's `copy_from_slice` would be a call of `memmove`, which a C host may not have.
pub fn copy<T: Copy>(to: &mut [T], from: &[T])
    requires { length from.now ≡ length to.old }
    ensures { to.new ≡ from.now }
{
    for (i, item) in to.iter_mut().enumerate() {
        *item = from[i];
    }
}

// Copies words to the places from `to` on.
#[tactic(auto, using(crate::proofs::Copies::part_written))]
pub fn copy_from(s: &mut [u32], to: usize, source: &[u32])
    requires { to + length source.now ≤ length s.old }
    ensures { s.new ≡ splice s.old to source.now }
{
    copy(&mut s[to..to + source.len()], source);
}
