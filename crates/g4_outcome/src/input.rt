// What is fetched of a file.
use g4_base::Octets;

/// A file's content, or its size past the limit.
#[derive(Drop)]
pub enum Input {
    Bytes(Octets),
    TooLarge(u64),
}
