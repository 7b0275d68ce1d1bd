//! Why a server refuses: the numbers of `ToClient::Refused`. docs/PROTOCOL.md says when each comes.

/// The answer would tell more than `MOST_TOLD` entries: the client is to sync first.
pub const BEHIND: u8 = 1;

/// `MOST_UNSEALED` entries aren't sealed.
pub const PENDING_FULL: u8 = 2;

/// With this put the weight would be over `MOST_WEIGHT`.
pub const WEIGHT_FULL: u8 = 3;

/// The history has `MOST_ENTRIES` entries.
pub const HISTORY_FULL: u8 = 4;

/// The request isn't one, or doesn't come at this time.
pub const OUT_OF_ORDER: u8 = 5;

/// The connection's client isn't a member, or can't become one.
pub const NOT_MEMBER: u8 = 6;

/// `MOST_CONTENTS` contents are kept, or their bytes would be over `MOST_CONTENT_BYTES`.
pub const CONTENT_FULL: u8 = 7;
