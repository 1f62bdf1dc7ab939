ghost use Rattle.std.specs.Prelude.{◌≡◌, ◌≢◌, ◌^◌, ◌<◌, ◌↔◌, All, IsTrue, MatchOption, SomeIff, length};
ghost use Rattle.std.specs.Prelude.{slice_index};
ghost use Rattle.text_lines.specs.Texts.{IsDigit, IsNumber, number_of};

// So many digits give a number below 2 ^ 64.
const SHORT: usize = 19;

/// A number of any size, as the digits of its word.
#[derive(Clone, Copy)]
pub struct Number<'t> {
    /// Decimal digits: `0` alone, or without a leading zero.
    pub digits: &'t str,
    ghost is_number: { IsNumber digits.now },
}

impl<'t> Number<'t> {
    /// The number that a word stands for, if it is one.
    pub fn of(word: &'t str) -> Option<Number<'t>>
        ensures { MatchOption result (¬ IsNumber word.entry.now)
            (λ n. (n.digits.now ≡ word.entry.now) × IsNumber word.entry.now) }
    {
        if is_number(word) {
            Some(Number { digits: word })
        } else {
            None
        }
    }

    /// The number, where it is below 2 ^ 64.
    pub fn value(self) -> Option<u64>
        ensures { SomeIff result (number_of self.entry.digits.now < 2 ^ 64)
            (number_of self.entry.digits.now) }
    {
        value_of(self.digits)
    }
}

/// The value of a word that is a number below 2 ^ 64. Its digits are looked at once.
pub fn value_in(word: &str) -> Option<u64>
    ensures { SomeIff result (IsNumber word.now × (number_of word.now < 2 ^ 64)) (number_of word.now) }
{
    match word.as_bytes().first() {
        Some(b'0') => zero_in(word),
        Some(_) => value_from(word),
        None => None,
    }
}

// The number of a word that begins with `0`: the word `0` alone has one.
fn zero_in(word: &str) -> Option<u64>
    requires nonempty { 0 < length word.now }
    requires zero { slice_index word.now 0 ≡ 48 }
    ensures { SomeIff result (IsNumber word.now × (number_of word.now < 2 ^ 64)) (number_of word.now) }
{
    if word.len() == 1 { Some(0) } else { None }
}

// The number of a word without a leading zero. More digits than surely fit are left to std.
fn value_from(word: &str) -> Option<u64>
    requires nonempty { 0 < length word.now }
    requires lead { slice_index word.now 0 ≢ 48 }
    ensures { SomeIff result (IsNumber word.now × (number_of word.now < 2 ^ 64)) (number_of word.now) }
{
    let bytes = word.as_bytes();
    if bytes.len() > SHORT {
        return Number::of(word)?.value();
    }
    let mut value: u64 = 0;
    for i in 0..bytes.len() {
        if !bytes[i].is_ascii_digit() {
            return None;
        }
        value = 10 * value + u64::from(bytes[i] - b'0');
    }
    Some(value)
}

fn is_number(word: &str) -> bool
    ensures { IsTrue result ↔ IsNumber word.now }
{
    let bytes = word.as_bytes();
    match bytes.first() {
        Some(b'0') => bytes.len() == 1,
        Some(_) => are_digits(bytes),
        None => false,
    }
}

fn are_digits(bytes: &[u8]) -> bool
    ensures { IsTrue result ↔ All IsDigit bytes.now }
{
    bytes.iter().all(|byte| byte.is_ascii_digit())
}

fn value_of(digits: &str) -> Option<u64>
    requires { IsNumber digits.now }
    ensures { SomeIff result (number_of digits.now < 2 ^ 64) (number_of digits.now) }
{
    digits.parse::<u64>().ok()
}
