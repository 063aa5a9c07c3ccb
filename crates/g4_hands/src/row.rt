// The seats of a hand, while they are given out.
ghost use Rattle.std.specs.Prelude.{◌≡◌, ◌≤◌, ◌<◌, ◌-◌, ◌∷◌, ◌++◌, [], true, false, IfOk, OnOk, length};
ghost use Rattle.g4_hands.specs.Dealing.{dealt};
ghost use Rattle.g4_hands.specs.Reaches.{reach};
ghost use Rattle.g4_hands.specs.Rows.{AreSeated, HaveOneMore};
ghost use Rattle.g4_hands.specs.Shares.{all_parts, share};

use crate::pile::Pile;
use crate::seat::Seat;
use std::alloc::{AllocError, Global};
use std::marker::Model;

/// The seats of a hand so far. Contracts see them in order.
#[derive(Drop)]
pub struct Row {
    seats: Vec<Seat>,
}

impl Model for Row {
    ghost use Rattle.std.specs.Prelude.{List};
    ghost use Rattle.g4_hands.specs.Reaches.{Reach};

    ghost Value = { List Reach };

    ghost view = { λ r. r.seats.items };
}

impl Row {
    /// No seat.
    pub fn new(alloc: Global) -> Row
        ensures { result ≡ [] }
    {
        Row {
            seats: Vec::new(alloc),
        }
    }

    /// One more seat.
    pub fn push(&mut self, seat: Seat) -> Result<(), AllocError>
        ensures { OnOk result (self.new ≡ self.old ++ seat ∷ []) }
    {
        self.seats.push(seat)?;
        Ok(())
    }

    /// The seats.
    pub fn into_seats(self) -> Vec<Seat>
        ensures { result.items ≡ self }
    {
        let Row { seats } = self;
        seats
    }
}

/// Each of these rows gets a seat from which it steals from the deque.
fn lend(rows: &mut [Row], pile: &mut Pile, from: usize, to: usize) -> Result<(), AllocError>
    requires range { (from ≤ to) × (to ≤ length rows.old) }
    requires parts { to - from < pile.old.share.parts }
    ensures rows { OnOk result (HaveOneMore from to (reach false pile.old.deque (share 1 pile.old.share.dealt [])) rows.old rows.new) }
    ensures pile { OnOk result
        (pile.new ≡ reach pile.old.own pile.old.deque
        (share (pile.old.share.parts - (to - from)) pile.old.share.dealt pile.old.share.taken)) }
{
    for number in from..to {
        let thief = pile.thief()?;
        let row = &mut rows[number];
        row.push(Seat::other(thief))?;
    }
    Ok(())
}

/// Each row gets a seat at the deque, of which the row of this number gets the own end.
pub fn share_out(
    rows: &mut [Row],
    mut pile: Pile,
    number: usize,
    files: u32,
) -> Result<(), AllocError>
    requires range { (number < length rows.old) × (length rows.old ≤ 64) }
    requires pile { (pile.own ≡ true) × (pile.share ≡ share all_parts (dealt (length rows.old) number files) []) }
    ensures { OnOk result (AreSeated files (length rows.old) number pile.deque rows.old rows.new) }
{
    let jobs = rows.len();
    lend(rows, &mut pile, 0, number)?;
    lend(rows, &mut pile, number + 1, jobs)?;
    let row = &mut rows[number];
    row.push(Seat::own(pile))
}
