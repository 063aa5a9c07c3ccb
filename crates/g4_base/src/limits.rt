// The limits of what is read.

/// The greatest size of a file, in bytes.
pub const MOST_BYTES: u64 = 16_777_216;
