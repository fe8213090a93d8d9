//! How many items and lines a text has at most, so that room for them is taken once.

ghost use Rattle.std.specs.Prelude.{◌≡◌, ◌==◌, ◌||◌, not, min, count_by, take_while};

/// How often a byte stands in a text.
pub fn occurrences(text: &[u8], byte: u8) -> usize
    ensures { result ≡ count_by (λ b. b == byte) text.now }
{
    text.iter().filter(|b| **b == byte).count()
}

/// How many spaces stand in front of the first line feed or colon.
pub fn spaces(text: &[u8]) -> usize
    ensures { result ≡ count_by (λ b. b == 32) (take_while (λ b. not (b == 10 || b == 58)) text.now) }
{
    text.iter()
        .take_while(|b| !(**b == b'\n' || **b == b':'))
        .filter(|b| **b == b' ')
        .count()
}

/// How many lines with this mark a text has at most, where so many are promised.
pub fn lines(text: &[u8], mark: u8, promised: u64) -> usize
    ensures { result ≡ min promised (min (count_by (λ b. b == mark) text.now) (count_by (λ b. b == 10) text.now)) }
{
    let marked = occurrences(text, mark).min(occurrences(text, b'\n'));
    promised.min(marked as u64) as usize
}
