//! Codes of keys: a class, and two numbers that rise with the key inside its class.

ghost use Rattle.std.specs.Prelude.{ℕ, suc, ◌+◌, ◌*◌, ◌≡◌, ◌<◌, ◌≤◌, ◌^◌, ◌++◌};
ghost use Rattle.std.specs.Int.{to_be_bytes, w32, w64};
ghost use Rattle.dv_order.specs.Codes.{after, integer_at, lead, offset};

/// What a key is compared by first.
#[derive(Clone, Copy, Debug, Drop)]
pub struct KeyCode {
    /// The class of the key's value, in the order of the classes.
    pub class: u8,
    /// Rises with the key inside its class.
    pub high: u64,
    /// Rises with the key among those with the same number above.
    pub low: u32,
    /// Whether these determine the key.
    pub is_exact: bool,
}

/// The number of the lowest integer that isn't negative.
const HALF: u64 = 9_223_372_036_854_775_808;

/// The integer's place among all of 64 bits, the lowest having 0.
pub(crate) fn offset_of(number: i64) -> u64
    ensures offset { result ≡ offset number }
    ensures back { integer_at result ≡ number }
{
    if number >= 0 {
        HALF + number.unsigned_abs()
    } else {
        HALF - number.unsigned_abs()
    }
}

/// The integer at a place.
pub(crate) fn integer_of(place: u64) -> i64
    ensures { result ≡ integer_at place }
{
    if place >= HALF {
        (place - HALF) as i64
    } else {
        -((HALF - 1 - place) as i64) - 1
    }
}

/// The first byte, or 0 if there is none, and the bytes after it.
fn first_of(bytes: &[u8]) -> (u8, &[u8])
    ensures number { (n acc : ℕ) → lead (suc n) acc bytes.now ≡ lead n (acc * 256 + result.0) result.1.now }
    ensures rest { (n : ℕ) → after (suc n) bytes.now ≡ after n result.1.now }
    ensures within { result.0 < 256 }
{
    match bytes.split_first() {
        Some((byte, rest)) => (*byte, rest),
        None => (0, bytes),
    }
}

/// The number whose digits are the first `count` bytes, with zeros for missing bytes; and the bytes after them.
fn lead_of(bytes: &[u8], count: usize) -> (u64, &[u8])
    requires { count ≤ 8 }
    ensures number { result.0 ≡ lead count 0 bytes.now }
    ensures rest { result.1.now ≡ after count bytes.now }
    ensures within { result.0 < 256 ^ count }
{
    let mut number = 0_u64;
    let mut rest = bytes;
    'digits: for place in 0..count {
        let (byte, more) = first_of(rest);
        number = number * 256 + u64::from(byte);
        rest = more;
    }
    (number, rest)
}

/// The first twelve bytes, as two numbers.
pub(crate) fn numbers_of_bytes(bytes: &[u8]) -> (u64, u32)
    ensures high { result.0 ≡ lead 8 0 bytes.now }
    ensures low { result.1 ≡ lead 4 0 (after 8 bytes.now) }
{
    let (high, rest) = lead_of(bytes, 8);
    let (low, _) = lead_of(rest, 4);
    (high, low as u32)
}

/// The bytes of two numbers.
pub(crate) fn object_id_of(high: u64, low: u32) -> [u8; 12]
    ensures { result ≡ to_be_bytes w64 high ++ to_be_bytes w32 low }
{
    let [a, b, c, d, e, f, g, h] = high.to_be_bytes();
    let [i, j, k, l] = low.to_be_bytes();
    [a, b, c, d, e, f, g, h, i, j, k, l]
}
