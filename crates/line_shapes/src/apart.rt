ghost use Rattle.std.specs.Prelude.{◌≡◌, ◌≢◌, ◌↔◌, ◌<◌, ◌+◌, ◌-◌, ◌*◌, ◌%◌, ℕ, List, IsTrue, false};
ghost use Rattle.std.specs.Prelude.{length, map, slice_index_or};
ghost use Rattle.std.specs.List.{AllPairs};
ghost use Rattle.std.specs.Borrow.{Bor};

// So many names are compared sooner than they are marked.
const FEW: usize = 3;

// How many marks there are.
const MARKS: usize = 128;

/// Whether no name stands twice.
pub fn are_apart(names: &[&str]) -> bool
    ensures { IsTrue result ↔ AllPairs (λ a b. a ≢ b) (map (λ n. n.now) names.now) }
{
    are_different(names)
}

fn are_different(names: &[&str]) -> bool
    ensures { IsTrue result ↔ AllPairs (λ a b. a.now ≢ b.now) names.now }
{
    (names.len() > FEW && have_marks(names)) || differ(names)
}

// Whether no two names have one mark, as it is in most lines.
#[inline(never)]
fn have_marks(names: &[&str]) -> bool
    ensures { IsTrue result → AllPairs (λ a b. a.now ≢ b.now) names.now }
{
    let mut seen = [false; MARKS];
    for i in 0..names.len() {
        let mark = mark_of(names[i]);
        if seen[mark] {
            return false;
        }
        seen[mark] = true;
    }
    true
}

// A number that is told by the last two bytes of a name.
#[inline(always)]
fn mark_of(name: &str) -> usize
    ensures mark { result ≡ (slice_index_or name.now (length name.now - 1) 0
        + 16 * slice_index_or name.now (length name.now - 2) 0) % 128 }
    ensures within { result < 128 }
{
    let bytes = name.as_bytes();
    let before = match bytes.get(bytes.len().saturating_sub(2)) {
        Some(byte) => *byte,
        None => 0,
    };
    (usize::from(last_byte(name)) + 16 * usize::from(before)) % MARKS
}

fn differ(names: &[&str]) -> bool
    ensures { IsTrue result ↔ AllPairs (λ a b. a.now ≢ b.now) names.now }
{
    for i in 0..names.len() {
        if stands_before(names, i) {
            return false;
        }
    }
    true
}

// Whether the name at a place stands at an earlier one too.
fn stands_before(names: &[&str], i: usize) -> bool
    requires { i < length names.now }
    ensures yes { IsTrue result → AllPairs (λ a b. a.now ≢ b.now) names.now → ⊥ }
    ensures no { result ≡ false → (k : ℕ) (d : Bor (List ℕ)) → k < i
        → (slice_index_or names.now k d).now ≢ (slice_index_or names.now i d).now }
{
    for k in 0..i {
        if are_same(names[k], names[i]) {
            return true;
        }
    }
    false
}

// Most names that differ do so in their length or their last byte.
#[inline(always)]
fn are_same(a: &str, b: &str) -> bool
    ensures { IsTrue result ↔ (a.now ≡ b.now) }
{
    a.len() == b.len() && last_byte(a) == last_byte(b) && are_equal(a, b)
}

// (Inlined, it would be made ready for each name, and few names come to it.)
#[inline(never)]
fn are_equal(a: &str, b: &str) -> bool
    ensures { IsTrue result ↔ (a.now ≡ b.now) }
{
    a == b
}

// The last byte, 0 where there is none.
#[inline(always)]
fn last_byte(name: &str) -> u8
    ensures { result ≡ slice_index_or name.now (length name.now - 1) 0 }
{
    let bytes = name.as_bytes();
    if bytes.is_empty() {
        0
    } else {
        bytes[bytes.len() - 1]
    }
}
