ghost use Rattle.std.specs.Prelude.{◌≡◌, ◌<◌};
ghost use Rattle.word_map.specs.Words.{hash_of, part_of};

// The hash of a word, below 2^32.
fn hash_of(word: &str) -> u64
    ensures { result ≡ hash_of word.now }
{
    let mut hash: u64 = 0;
    for byte in word.as_bytes() {
        hash = (31 * hash + u64::from(*byte)) % (1 << 32);
    }
    hash
}

/// The part of a word, from 0, where the words are divided into so many parts.
pub fn part_of(word: &str, parts: usize) -> usize
    requires { 0 < parts }
    ensures value { result ≡ part_of word.now parts }
    ensures bound { result < parts }
{
    hash_of(word) as usize % parts
}
