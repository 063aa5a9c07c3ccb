// The rule of one deque: what each pass of it knows, and what the steps change.
ghost use Rattle.std.specs.Prelude.{◌≡◌, ◌-◌, [], ◌++◌};
ghost use Rattle.g4_hands.specs.Shares.{IsFirst, IsShared, WasEmpty, all_parts, joined, no_share, share};

use crossbeam_deque::protocol::{Join, Outcome, Protocol, Split};
use crossbeam_deque::{Pass, Stealer, Worker};
use std::alloc::Global;
use std::collections::LinkedList;

/// What a pass knows of its deque: all that was put on it, and what was taken by this pass. Of the 1,024 parts in which the right to know
/// the whole deque is cut, a pass has some. No value of this type is made.
pub struct Share {
    pub parts: u64,
    pub dealt: LinkedList<u32>,
    pub taken: LinkedList<u32>,
}

/// The rule: what the passes took and what is left is what was put on the deque.
pub struct Sharing;

impl Protocol<u32, Share> for Sharing {
    ghost use Rattle.std.specs.Prelude.{[]};
    ghost use Rattle.g4_hands.specs.Shares.{IsShared, all_parts, no_share, share};

    ghost holds = { IsShared };

    ghost first = { share all_parts [] [] };

    ghost guest = { no_share };
}

/// A number is put on the deque.
pub struct Put;

impl Outcome<u32, Share> for Put {
    ghost then = { λ v xs w. w ≡ share v.parts (v.dealt ++ xs) v.taken };
}

/// A number is taken, the first one that nobody has taken; or none is left.
pub struct Take;

impl Outcome<u32, Share> for Take {
    ghost then = { λ v xs w. (w ≡ share v.parts v.dealt (v.taken ++ xs)) × IsFirst v xs };

    ghost empty = { WasEmpty };
}

/// Another pass is made.
pub struct Cut;

impl Split<Share> for Cut {
    ghost use Rattle.std.specs.Prelude.{[], ◌-◌};
    ghost use Rattle.g4_hands.specs.Shares.{share};

    ghost left = { λ v. share (v.parts - 1) v.dealt v.taken };

    ghost right = { λ v. share 1 v.dealt [] };
}

/// A pass comes back.
pub struct Union;

impl Join<Share> for Union {
    ghost use Rattle.g4_hands.specs.Shares.{joined, no_share};

    ghost both = { joined };

    ghost spent = { no_share };
}

/// The deque's own end.
pub type Owner = Worker<u32, Global, Share, Sharing>;

/// The end that others take from.
pub type End = Stealer<u32, Global, Share, Sharing>;

/// A pass of an end.
pub type Place = Pass<u32, Share>;
