// A set of numbers, one bit each: number n is bit n mod 64 of word n ÷ 64. Words that are not there hold no numbers.
ghost use Rattle.std.specs.Prelude.{◌≡◌};
ghost use Rattle.codec.specs.Seen.{is_seen, with_seen};

pub fn is_seen(words: &[u64], number: u32) -> bool
    ensures { result ≡ is_seen words.now number }
{
    let k = (number / 64) as usize;
    if k < words.len() {
        words[k] / (1u64 << (number % 64)) % 2 == 1
    } else {
        false
    }
}

// Adds a number, where there is a word for it.
pub fn add_seen(words: &mut [u64], number: u32)
    ensures { words.new ≡ with_seen words.old number }
{
    let k = (number / 64) as usize;
    if k < words.len() {
        let bit = 1u64 << (number % 64);
        if words[k] / bit % 2 == 0 {
            words[k] += bit;
        }
    }
}
