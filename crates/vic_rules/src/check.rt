//! What a client tests of each answer: the numbers at which it halts, in the order in which they are tried.
//! `verdict` of `specs/Client.antt` has them all; docs/PROTOCOL.md says where each fails.

/// The kind is awaited, the part is one, and the lengths are within the limits.
pub const FORM: u8 = 1;

/// The last entry of a Reply is the open call, and every other entry is another member's.
pub const MEMBERS: u8 = 2;

/// The tag of each entry holds.
pub const INVOKE_TAG: u8 = 3;

/// The seal isn't older than the highest one.
pub const BASE_BACK: u8 = 4;

/// The tag of the seal holds on this client's path.
pub const SEAL_TAG: u8 = 5;

/// No own unsealed call stands at or below the seal.
pub const OWN_UNSETTLED: u8 = 6;

/// The part has the seal's root, and shows what the operation walks over.
pub const PROOF: u8 = 7;

/// In an Update the first own unsealed call stands just above the seal.
pub const TURN: u8 = 8;

/// What a load found is a reference, and the content is the one that it names.
pub const CONTENT: u8 = 9;
