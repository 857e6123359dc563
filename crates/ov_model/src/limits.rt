//! The limits of a store, each in one place.

/// So many datasets are live at most.
pub const MOST_CVDS: usize = 1_024;

/// A dataset has so many versions at most.
pub const MOST_VERSIONS: u32 = 65_535;

/// A version has so many rows at most.
pub const MOST_ROWS: u32 = 1_000_000;

/// A dataset has so many records at most, 2^31.
pub const MOST_RECORDS: u64 = 2_147_483_648;

/// So many pairs of rows match in a join at most, before its WHERE is asked.
pub const MOST_JOINED: u32 = 1_000_000;

/// A checkout that stages a table lists so many versions at most.
pub const MOST_STAGED_VIDS: usize = 1_000;

/// A message has so many bytes at most.
pub const MESSAGE_BYTES: usize = 1_024;

/// A CSV file has so many bytes at most.
pub const FILE_BYTES: usize = 67_108_864;

/// A line of a script has so many bytes at most, without its line feed.
pub const LINE_BYTES: usize = 65_536;
