//! Documents one after the other, as their lengths frame them.

ghost use Rattle.std.specs.Prelude.{◌≡◌, ◌∷◌, [], MatchOption, option_map};
ghost use Rattle.dv_message.specs.Sections as wire;
ghost use Rattle.dv_message.specs.Inner.SectionsView.{framed_seen};

use crate::sections::number_behind;

/// The bytes of documents, one after the other.
#[derive(Clone, Copy)]
pub struct Framed<'a> {
    bytes: &'a [u8],
}

impl<'a> Framed<'a> {
    /// The documents of which the bytes consist; `None` if they don't consist of documents.
    pub(crate) fn of(bytes: &'a [u8]) -> Option<Self>
        ensures { option_map framed_seen result ≡ wire.section_documents bytes.now }
    {
        let mut rest = bytes;
        'documents: while !rest.is_empty() {
            let Some((_, behind)) = frame_at(rest) else {
                return None;
            };
            rest = behind;
        }
        Some(Framed { bytes })
    }

    /// The bytes of the first document, and the others; `None` if there is none.
    pub fn split_first(self) -> Option<(&'a [u8], Self)>
        ensures { MatchOption result (framed_seen self.entry ≡ []) (λ found. framed_seen self.entry ≡ found.0.now ∷ framed_seen found.1) }
    {
        let (document, bytes) = frame_at(self.bytes)?;
        Some((document, Framed { bytes }))
    }
}

/// The bytes that the length at their start covers, itself included, and the bytes after them; `None` if it is below 5 or there are
/// too few bytes.
#[tactic(auto, unfolding(crate::specs::Sections::section_frame))]
pub(crate) fn frame_at(bytes: &[u8]) -> Option<(&[u8], &[u8])>
    ensures { option_map (λ parts. (parts.0.now, parts.1.now)) result ≡ wire.section_frame bytes.now }
{
    if bytes.len() < 5 {
        return None;
    }
    let length = number_behind(0, bytes) as usize;
    if length < 5 || bytes.len() < length {
        return None;
    }
    Some(bytes.split_at(length))
}
