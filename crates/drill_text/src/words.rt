ghost use Rattle.std.specs.Prelude.{◌≡◌, ℕ, ◌<◌, ◌^◌, ◌↔◌, true, map, IfSome, IfNone};
ghost use Rattle.std.specs.Fmt.{decimal};
ghost use Rattle.std.specs.String.{string_bytes};
ghost use Rattle.drill_text.specs.Words.{IsDrill};
ghost use Rattle.drill_text.specs.Words as spec;

/// The most commands of a drill.
const COMMANDS: u64 = 10000;

/// What a drill is asked for.
#[derive(Clone, Copy, Debug, PartialEq, Eq)]
pub struct DrillWords {
    pub seed: u64,
    /// How many commands it has, 1 to 10,000.
    pub count: u32,
}

/// The seed and the number of commands that the words `drill SEED N` of the command line give, in
/// decimal digits without a leading zero; none where they are other words.
pub fn drill_words(words: &[String]) -> Option<DrillWords>
    ensures some { IfSome result (λ drill. IsDrill (map string_bytes words.now) drill.seed drill.count) }
    ensures none { IfNone result ((seed count : ℕ) → ¬ IsDrill (map string_bytes words.now) seed count) }
{
    let [word, seed, count] = words else {
        return None;
    };
    if !is_same(word.as_str(), "drill") {
        return None;
    }
    let seed = number_of(seed.as_str())?;
    let count = number_of(count.as_str())?;
    if count < 1 || count > COMMANDS {
        return None;
    }
    Some(DrillWords {
        seed,
        count: count as u32,
    })
}

fn is_same(word: &str, other: &str) -> bool
    ensures { result ≡ true ↔ word.now ≡ other.now }
{
    word == other
}

/// The number that a word spells in decimal digits without a leading zero, if it has at most 64 bits.
fn number_of(word: &str) -> Option<u64>
    ensures some { IfSome result (λ number. (word.now ≡ decimal number) × (number < 2 ^ 64)) }
    ensures none { IfNone result ((number : ℕ) → number < 2 ^ 64 → ¬ (word.now ≡ decimal number)) }
{
    if !is_plain(word.as_bytes()) {
        return None;
    }
    word.parse::<u64>().ok()
}

/// Whether a word has no sign, and no zero before other digits.
fn is_plain(word: &[u8]) -> bool
    ensures { result ≡ spec.is_plain word.now }
{
    !word.is_empty() && word[0] != b'+' && (word[0] != b'0' || word.len() == 1)
}
