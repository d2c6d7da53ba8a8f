// The layout of a shelf: its beats, the words that its counts give, and the zeros behind them.
ghost use Rattle.std.specs.List.{fold};
ghost use Rattle.std.specs.Prelude.{◌≡◌, ◌≤◌, bit_or, eqb, length};
ghost use Rattle.model.specs.Lists.{every};
ghost use Rattle.model.specs.Soundness.{layout_ok};
ghost use Rattle.model.specs.Takes.{words_used};

use model::Header;

// The words that so many notes and cells take with n, N and C in front of them.
pub fn words_used(notes: u32, cells: u32) -> usize
    ensures { result ≡ words_used notes cells }
{
    3 + 4 * (notes as usize) + 6 * (cells as usize)
}

// All words joined by "or": 0 only if all are zeros.
fn joined(words: &[u32]) -> u32
    ensures { result ≡ fold bit_or 0 words.now }
{
    words.iter().fold(0, |all, word| all | *word)
}

// Are all words zeros? In blocks, so that many words are looked at in one step; what is left behind the last whole block is looked at too. A `for`
// over `as_chunks` was proved: with it, the loop over notes that follows in question 4 kept δ in memory, and a join of 1,000 notes took 1.04 times
// as long as the second implementation's.
fn are_zeros(words: &[u32]) -> bool
    ensures { result ≡ every (eqb 0) words.now }
{
    let mut rest = words;
    while let Some((block, behind)) = rest.split_first_chunk::<64>() {
        if joined(block) != 0 {
            return false;
        }
        rest = behind;
    }
    joined(rest) == 0
}

// At most 4,096 beats; notes and cells within the shelf's words; zeros behind them.
pub fn layout_ok(part: &[u32]) -> bool
    requires { 3 ≤ length part.now }
    ensures { result ≡ layout_ok (length part.now) part.now }
{
    if Header::BEATS < part[0] {
        return false;
    }
    let used = words_used(part[1], part[2]);
    if part.len() < used {
        return false;
    }
    are_zeros(&part[used..])
}
