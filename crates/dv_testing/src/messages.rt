//! Messages and the replies to them.

/// `{ping: 1, $db: "t"}`, the request 7.
pub const PING: &[u8] =
    b"/\0\0\0\x07\0\0\0\0\0\0\0\xdd\x07\0\0\0\0\0\0\0\x1a\0\0\0\x10ping\0\x01\0\0\0\x02$db\0\x02\0\0\0t\0\0";

/// Its reply, `{ok: 1}`.
pub const PONG: &[u8] =
    b"\x22\0\0\0\0\0\0\0\x07\0\0\0\xdd\x07\0\0\0\0\0\0\0\x0d\0\0\0\x10ok\0\x01\0\0\0\0";

/// `{insert: "c", documents: [{_id: 1}], $db: "t"}`, the request 1.
pub const INSERT: &[u8] =
    b"T\0\0\0\x01\0\0\0\0\0\0\0\xdd\x07\0\0\0\0\0\0\0?\0\0\0\x02insert\0\x02\0\0\0c\0\x04documents\0\x16\0\0\0\x030\0\x0e\0\0\0\x10_id\0\x01\0\0\0\0\0\x02$db\0\x02\0\0\0t\0\0";

/// Its reply, `{n: 1, ok: 1}`.
pub const INSERTED: &[u8] =
    b")\0\0\0\0\0\0\0\x01\0\0\0\xdd\x07\0\0\0\0\0\0\0\x14\0\0\0\x10n\0\x01\0\0\0\x10ok\0\x01\0\0\0\0";

/// `{find: "c", $db: "t"}`, the request 2.
pub const FIND: &[u8] =
    b"1\0\0\0\x02\0\0\0\0\0\0\0\xdd\x07\0\0\0\0\0\0\0\x1c\0\0\0\x02find\0\x02\0\0\0c\0\x02$db\0\x02\0\0\0t\0\0";

/// Its reply, with `{_id: 1}`.
pub const FOUND: &[u8] =
    b"i\0\0\0\0\0\0\0\x02\0\0\0\xdd\x07\0\0\0\0\0\0\0T\0\0\0\x03cursor\0?\0\0\0\x04firstBatch\0\x16\0\0\0\x030\0\x0e\0\0\0\x10_id\0\x01\0\0\0\0\0\x12id\0\0\0\0\0\0\0\0\0\x02ns\0\x04\0\0\0t.c\0\0\x10ok\0\x01\0\0\0\0";
