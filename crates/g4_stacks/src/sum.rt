// Numbers of sets of stacks, by which sets are hashed: sums over the stacks, which are made without a list of these.
ghost use Rattle.std.specs.Prelude.{◌≡◌, ◌≤◌, ◌<◌, ◌++◌, ◌^◌, ◌+◌, ◌*◌, ◌%◌, List, [], map};
ghost use Rattle.g4_net.specs.Configurations.{Stack};
ghost use Rattle.g4_stacks.specs.Listing.{marked};
ghost use Rattle.g4_stacks.specs.Stack.{pushed};
ghost use Rattle.g4_stacks.specs.Sums.{IsSum, IsMark, mixed_from};

/// The prime modulo which sums are taken.
pub const MODULUS: u64 = 4_294_967_291;

/// The odd number by which numbers are spread: 2 ^ 64 by the golden ratio.
pub const SPREAD: u64 = 11_400_714_819_323_198_485;

/// A number of at most 2 ^ 32 that depends on all bits of another.
pub fn mixed(number: u64) -> u64
    ensures is { result ≡ mixed_from number }
    ensures small { result ≤ 2 ^ 32 }
{
    let high = number.wrapping_mul(SPREAD) / 4_294_967_296;
    high.wrapping_mul(high) / 65_536 % 4_294_967_296 + 1
}

/// How many stacks a set has, and the sum of their numbers, both modulo `MODULUS`.
#[derive(Clone, Copy)]
pub struct Sum {
    pub count: u64,
    pub total: u64,
    ghost small: { (count < 4294967291) × (total < 4294967291) },
}

impl Sum {
    /// That of the empty set.
    pub fn nothing() -> Sum
        ensures { IsSum result.count result.total [] }
    {
        Sum { count: 0, total: 0 }
    }

    /// That of a mark alone, which has this number, where it is in the set.
    pub(crate) fn mark(present: bool, total: u64) -> Sum
        requires { total < 3 }
        ensures { (s : Stack) → IsMark s total → IsSum result.count result.total (marked present s) }
    {
        if !present {
            return Sum::nothing();
        }
        Sum { count: 1, total }
    }

    /// That of two lists of stacks together.
    pub fn plus(self, other: Sum) -> Sum
        ensures { (xs ys : List Stack) → IsSum self.count self.total xs → IsSum other.count other.total ys
            → IsSum result.count result.total (xs ++ ys) }
    {
        Sum {
            count: (self.count + other.count) % MODULUS,
            total: (self.total + other.total) % MODULUS,
        }
    }

    /// The sum of the numbers of all stacks, each with 3 added and times a factor of at most 2 ^ 32.
    pub fn times(self, factor: u64) -> u64
        requires { factor ≤ 2 ^ 32 }
        ensures small { result < 4294967291 }
        ensures is { result ≡ factor * ((self.total + 3 * self.count) % 4294967291) % 4294967291 }
    {
        factor * ((self.total + 3 * self.count) % MODULUS) % MODULUS
    }

    /// That of the same stacks, each with this state on top.
    pub(crate) fn below(self, state: u32) -> Sum
        ensures { (xs : List Stack) → IsSum self.count self.total xs → IsSum result.count result.total (map (pushed state) xs) }
    {
        Sum {
            count: self.count,
            total: self.times(mixed(state as u64 + 1)),
        }
    }
}
