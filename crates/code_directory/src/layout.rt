//! Numbers of the layout: CS_CodeDirectory and the slot types of Apple's cs_blobs.h.

/// The magic of an embedded signature.
pub const SIGNATURE_MAGIC: u32 = 0xfade_0cc0;

/// The magic of a code directory.
pub const DIRECTORY_MAGIC: u32 = 0xfade_0c02;

/// The part that holds a set of requirements.
pub const REQUIREMENTS: u32 = 2;

/// The part that holds entitlements.
pub const ENTITLEMENTS: u32 = 5;

/// The part that holds entitlements in DER.
pub const DER_ENTITLEMENTS: u32 = 7;

/// The first version that is read.
pub const FIRST_VERSION: u32 = 0x0002_0001;

/// The last version that is read. Fields that a version of the layout added later are passed over.
pub const LAST_VERSION: u32 = 0x0002_f000;

/// How many bytes the header of every version has at least.
pub const LEAST_HEADER: usize = 44;

/// From this version on the header has a place for scatter vectors.
pub const SCATTER_VERSION: u32 = 0x0002_0100;

/// From this version on the header has a place for a team.
pub const TEAM_VERSION: u32 = 0x0002_0200;

/// From this version on the header has a place for a limit of eight bytes.
pub const LONG_LIMIT_VERSION: u32 = 0x0002_0300;

/// From this version on the header has places for the executable segment.
pub const SEGMENT_VERSION: u32 = 0x0002_0400;

/// From this version on the header has places for the runtime and the pre-encryption slots.
pub const RUNTIME_VERSION: u32 = 0x0002_0500;

/// A page has at most 2 to this power bytes.
pub const MOST_PAGE_EXPONENT: u8 = 30;
