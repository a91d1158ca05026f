//! Pieces of a text, and the numbers in it.
ghost use Rattle.std.specs.Prelude.{◌≡◌, ◌+◌, ◌-◌, ◌*◌, ◌==◌, Some, None, MatchOption, position};
ghost use Rattle.book_lines.specs.Pieces.{before, behind, number, pair_of};

/// Reads a number of one to five digits.
pub fn read_number(s: &[u8]) -> Option<u32>
    ensures { result ≡ number s.now }
{
    if !(1..=5).contains(&s.len()) {
        return None;
    }
    let mut n: u32 = 0;
    for b in s {
        if !b.is_ascii_digit() {
            return None;
        }
        n = 10 * n + u32::from(*b - b'0');
    }
    Some(n)
}

// The place of the first byte `at`.
fn place_of(s: &[u8], at: u8) -> Option<usize>
    ensures { result ≡ position (λ b. b == at) s.now }
{
    s.iter().position(|b| *b == at)
}

// What stands before and behind the first byte `at`.
#[tactic(auto, using(crate::proofs::Cuts::placed_nowhere))]
pub(crate) fn cut_at(s: &[u8], at: u8) -> Option<(&[u8], &[u8])>
    ensures { MatchOption result (behind at s.now ≡ None) (λ p. (p.0.now ≡ before at s.now) × (behind at s.now ≡ Some p.1.now)) }
{
    let i = place_of(s, at)?;
    Some((&s[..i], &s[i + 1..]))
}

pub(crate) fn read_pair(s: &[u8]) -> Option<(u32, u32)>
    ensures { result ≡ pair_of s.now }
{
    let (a, b) = cut_at(s, b' ')?;
    Some((read_number(a)?, read_number(b)?))
}
