//! Whether two texts are the same.
ghost use Rattle.std.specs.Prelude.{◌≡◌, ◌≤◌, ◌+◌, ◌<◌, ◌*◌, ℕ, true, length, bytes_eq, get_or};

/// Texts of so many bytes, as names mostly are, are compared by words of four bytes.
const SHORT: usize = 16;

/// Whether a text is as short as names mostly are.
#[inline(always)]
pub fn is_short(text: &str) -> bool
    ensures { result ≡ true → length text.now ≤ 16 }
{
    text.len() <= SHORT
}

/// Whether two texts are the same, byte for byte. For names: short texts are compared by words that may overlap, in fewer instructions
/// than `==` takes.
#[inline(always)]
pub fn same_text(one: &str, other: &str) -> bool
    ensures { result ≡ bytes_eq one.now other.now }
{
    if is_short(one) {
        return same_short(one, other);
    }
    same_long(one, other)
}

/// The same, where the first is short. It calls nothing, so that a loop over it stays small.
#[inline(always)]
pub fn same_short(one: &str, other: &str) -> bool
    requires { length one.now ≤ 16 }
    ensures { result ≡ bytes_eq one.now other.now }
{
    if one.len() != other.len() {
        return false;
    }
    same_bytes(one.as_bytes(), other.as_bytes())
}

#[inline(never)]
fn same_long(one: &str, other: &str) -> bool
    ensures { result ≡ bytes_eq one.now other.now }
{
    one == other
}

#[inline(always)]
fn same_bytes(one: &[u8], other: &[u8]) -> bool
    requires same { length one.now ≡ length other.now }
    requires short { length one.now ≤ 16 }
    ensures { result ≡ bytes_eq one.now other.now }
{
    let count = one.len();
    if count < 4 {
        return same_few(one, other);
    }
    if count > 7 {
        return same_many(one, other);
    }
    if !same_word(one, other, 0) {
        return false;
    }
    same_word(one, other, count - 4)
}

// Whether eight to sixteen bytes are the same.
#[inline(always)]
fn same_many(one: &[u8], other: &[u8]) -> bool
    requires same { length one.now ≡ length other.now }
    requires many { 8 ≤ length one.now }
    requires short { length one.now ≤ 16 }
    ensures { result ≡ bytes_eq one.now other.now }
{
    let count = one.len();
    if !same_word(one, other, 0) {
        return false;
    }
    if !same_word(one, other, 4) {
        return false;
    }
    if !same_word(one, other, count - 8) {
        return false;
    }
    same_word(one, other, count - 4)
}

// Whether three bytes at most are the same: the first, the middle and the last.
#[inline(always)]
fn same_few(one: &[u8], other: &[u8]) -> bool
    requires same { length one.now ≡ length other.now }
    requires few { length one.now ≤ 3 }
    ensures { result ≡ bytes_eq one.now other.now }
{
    let count = one.len();
    if count == 0 {
        return true;
    }
    let (middle, last) = (count / 2, count - 1);
    one[0] == other[0] && one[middle] == other[middle] && one[last] == other[last]
}

// Whether the four bytes from a place on are the same.
#[inline(always)]
fn same_word(one: &[u8], other: &[u8], at: usize) -> bool
    requires one { at + 4 ≤ length one.now }
    requires other { at + 4 ≤ length other.now }
    ensures same { result ≡ true
        → (i : ℕ) → at ≤ i → i < at + 4 → get_or one.now i 0 ≡ get_or other.now i 0 }
    ensures differ { one.now ≡ other.now → result ≡ true }
{
    word_at(one, at) == word_at(other, at)
}

// The four bytes from a place on as one number.
#[inline(always)]
fn word_at(bytes: &[u8], at: usize) -> u32
    requires { at + 4 ≤ length bytes.now }
    ensures { result ≡ get_or bytes.now at 0 + get_or bytes.now (at + 1) 0 * 256
        + get_or bytes.now (at + 2) 0 * 65536 + get_or bytes.now (at + 3) 0 * 16777216 }
{
    u32::from_le_bytes([bytes[at], bytes[at + 1], bytes[at + 2], bytes[at + 3]])
}
