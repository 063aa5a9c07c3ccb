// A line that is written.
use g4_base::Octets;

/// A line of the report, on the one output or the other.
#[derive(Drop)]
pub enum Line {
    ToOut(Octets),
    ToErr(Octets),
}
