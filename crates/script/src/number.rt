// Numbers as a script writes them.
ghost use Rattle.std.specs.Prelude.{◌≡◌};
ghost use Rattle.script.specs.Numerals.{number_up_to};

// The number that the word's digits write, where it is at most the limit. A loop: by a `try_fold` over the digits a word took
// half as much time again.
pub fn number_up_to(limit: u32, word: &[u8]) -> Option<u32>
    ensures { result ≡ number_up_to limit word.now }
{
    if word.is_empty() {
        return None;
    }
    let mut value = 0u64;
    for b in word {
        if !b.is_ascii_digit() {
            return None;
        }
        value = value * 10 + u64::from(*b - b'0');
        if value > u64::from(limit) {
            return None;
        }
    }
    Some(value as u32)
}
