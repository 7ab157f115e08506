//! What holds of streams of messages.

ghost use Rattle.std.specs.Prelude.{◌≡◌, ◌≤◌, ◌<◌, ◌↔◌, ℕ, List, ◌++◌, length};
ghost use Rattle.dv_value.specs.Spelling.{IsBytes};
ghost use Rattle.dv_message.specs.Bytes.{IsByteSplit};
ghost use Rattle.dv_message.specs.Inner.Examples as examples;
ghost use Rattle.dv_message.specs.Message as wire;

/// A stream splits as its front shows: into no message if that is unfinished or a fault, and otherwise into the message and what
/// the bytes after it split into, which are fewer.
pub fn streams_split_by_their_fronts()
    ensures front { (bytes : List ℕ) → wire.split bytes ≡ wire.split_from bytes (wire.stream_front bytes) wire.split }
    ensures whole { (bytes : List ℕ) (message : wire.Message) (following : List ℕ) → wire.stream_front bytes ≡ wire.whole message following
        → (taken : List ℕ) × (bytes ≡ taken ++ following) × (length following < length bytes) }
{}

/// If more bytes follow a stream, it splits as before, and then as its rest with these bytes; after a fault it is split no further.
pub fn splitting_goes_on()
    ensures { (bytes more : List ℕ) → wire.split (bytes ++ more) ≡ wire.continuation (wire.split bytes) more }
{}

/// A message is split off exactly if its encoding begins the stream.
pub fn messages_are_spelled()
    ensures { (bytes following : List ℕ) (message : wire.Message) → IsBytes bytes
        → (wire.stream_front bytes ≡ wire.whole message following) ↔ ((spelled : List ℕ) × wire.IsMessage message spelled × (bytes ≡ spelled ++ following)) }
{}

/// Each message takes at least one byte.
pub fn messages_are_no_more_than_bytes()
    ensures { (bytes : List ℕ) → length (wire.split bytes).messages ≤ length bytes }
{}

/// A stream of bytes splits into messages of bytes, and what is kept after them is bytes.
pub fn bytes_bring_bytes()
    ensures { (bytes : List ℕ) → IsBytes bytes → IsByteSplit (wire.split bytes) }
{}

/// When a message's length, code and flags close its session, by worked examples.
pub fn headers_by_example()
    ensures { examples.HeaderExamples }
{}

/// Which sections close a session, by worked examples.
pub fn sections_by_example()
    ensures { examples.SectionExamples }
{}
