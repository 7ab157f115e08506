//! Texts in a fixed number of bytes.

ghost use Rattle.std.specs.Prelude.{◌≡◌, ◌<◌, ◌≤◌, IfSome, None, length, take};
ghost use Rattle.std.specs.Str.{IsUtf8};

/// `N` bytes that begin with the text; none if it is longer than that. Takes no memory.
pub fn padded<const N: usize>(text: &[u8]) -> Option<[u8; N]>
    ensures none { result ≡ None → N < length text.now }
    ensures within { IfSome result (λ bytes. length text.now ≤ length bytes) }
    ensures text { IfSome result (λ bytes. take (length text.now) bytes ≡ text.now) }
{
    if N < text.len() {
        return None;
    }
    let mut bytes = [0; N];
    bytes[..text.len()].copy_from_slice(text);
    Some(bytes)
}

/// The text that the first `len` bytes are. There have to be so many, and they have to be UTF-8.
pub fn text_in(bytes: &[u8], len: u8) -> &str
    requires { (len ≤ length bytes.now) × IsUtf8 (take len bytes.now) }
    ensures { result.now ≡ take len bytes.now }
{
    unsafe { str::from_utf8_unchecked(&bytes[..usize::from(len)]) }
}
