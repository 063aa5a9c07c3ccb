// Steps that are made and remembered.
ghost use Rattle.std.specs.Prelude.{◌↔◌, ◌<◌, ◌≤◌, IfOk, IfSome, length};
ghost use Rattle.g4_configs.specs.Configs.{Holds};
ghost use Rattle.g4_frames.specs.Framed.{IsFramed};
ghost use Rattle.g4_frames.specs.Running.{AreSame};
ghost use Rattle.g4_full.specs.Remembered.{CanBeMade, HasRow, IsLive, IsNumber, IsSet, IsSound, KeepsSets, SetOf};
ghost use Rattle.g4_full.specs.declared.frames.TheConstants.{MOST_SETS};
ghost use Rattle.g4_net.specs.Configurations.{Config, IsRow, IsWithin};
ghost use Rattle.g4_net.specs.declared.network.TheConstants.{MOST_STATES};
ghost use Rattle.g4_net.specs.Leads.{WellFormed};
ghost use Rattle.g4_net.specs.Loops.{HasLoops};

use crate::ask::ask;
use crate::frames::{Frame, Frames};
use crate::live::Live;
use crate::look::Step;
use g4_closure::{framed_advance, framed_start, lower};
use g4_configs::{Configs, Snapshot};
use g4_guards::allowed_at;
use g4_net::ParserNetwork;
use std::alloc::{AllocError, Global};

impl Frames {
    /// By how many steps a set is made from a decision's start that is made by a step from the set of this number.
    fn depth_after(&self, from: u32) -> usize
        requires { IsNumber self.now from }
    {
        self.sets[from as usize].depth.saturating_add(1)
    }

    /// Remembers a set that is not remembered so far.
    fn add_set(
        &mut self,
        alloc: Global,
        net: &ParserNetwork,
        set: Configs,
        row: Snapshot,
        code: u64,
        depth: usize,
    ) -> Result<Live, AllocError>
        requires sound { IsSound net.now self.old }
        requires room { length self.old.sets.items < MOST_SETS }
        requires framed { IsFramed net.now (Holds set) }
        requires within { (c : Config) → Holds set c → IsWithin net.now c }
        requires row { IsRow row (Holds set) }
        ensures sound { IsSound net.now self.new }
        ensures keeps { KeepsSets self.old self.new }
        ensures number { IfOk result (λ l. HasRow self.new l.number row) }
        ensures same { IfOk result (λ l. IfSome l.set (λ s. (c : Config) → Holds s c ↔ Holds set c)) }
    {
        let earlier = self.newest_with(code);
        let groups = set.count();
        let asked = ask(alloc, net, set)?;
        let frame = Frame {
            set: row,
            at_hole: asked.at_hole,
            shown: asked.shown,
            depth,
            groups,
            earlier,
        };
        let number = self.add(frame, code)?;
        Ok(Live {
            number,
            set: asked.set,
        })
    }

    /// The number of a set, which is remembered from here on if it was not. It was made by so many steps from a decision's start.
    fn number_of(
        &mut self,
        alloc: Global,
        net: &ParserNetwork,
        set: Configs,
        depth: usize,
    ) -> Result<Live, AllocError>
        requires sound { IsSound net.now self.old }
        requires room { length self.old.sets.items < MOST_SETS }
        requires framed { IsFramed net.now (Holds set) }
        requires within { (c : Config) → Holds set c → IsWithin net.now c }
        ensures sound { IsSound net.now self.new }
        ensures keeps { KeepsSets self.old self.new }
        ensures number { IfOk result (λ l. IsSet self.new l.number (Holds set)) }
        ensures live { IfOk result (IsLive self.new) }
    {
        let row = set.snapshot(alloc)?;
        let code = row.code(alloc)?;
        if let Some(number) = self.find(&row, code) {
            return Ok(Live {
                number,
                set: Some(set),
            });
        }
        let live = self.add_set(alloc, net, set, row, code, depth)?;
        Ok(live)
    }

    /// The set of this number: the one that is there, or else made from its row.
    fn set_of(&self, alloc: Global, from: u32, live: Live) -> Result<Configs, AllocError>
        requires number { IsNumber self.now from }
        requires live { IsLive self.now live }
        ensures { IfOk result (λ set. AreSame (Holds set) (SetOf self.now from)) }
    {
        match live.set {
            Some(set) if live.number == from => Ok(set),
            _ => {
                let set = self.sets[from as usize].set.load(alloc)?;
                Ok(set)
            }
        }
    }

    /// Makes the start set of a decision under a condition.
    fn make_start(
        &mut self,
        alloc: Global,
        net: &ParserNetwork,
        decision: u32,
        condition: u32,
    ) -> Result<Live, AllocError>
        requires well_formed { WellFormed net.now }
        requires loops { HasLoops net.now }
        requires few { length net.now.states ≤ MOST_STATES }
        requires sound { IsSound net.now self.old }
        requires room { length self.old.sets.items < MOST_SETS }
        ensures sound { IsSound net.now self.new }
        ensures live { IfOk result (IsLive self.new) }
    {
        let allowed = allowed_at(alloc, net, decision, condition)?;
        let start = framed_start(alloc, net, decision, &allowed)?;
        let made = self.number_of(alloc, net, start, 0)?;
        self.starts.insert((decision, condition), made.number)?;
        Ok(made)
    }

    /// Makes the set after a set and a symbol.
    fn make_next(
        &mut self,
        alloc: Global,
        net: &ParserNetwork,
        from: u32,
        symbol: u32,
        live: Live,
    ) -> Result<Live, AllocError>
        requires well_formed { WellFormed net.now }
        requires few { length net.now.states ≤ MOST_STATES }
        requires sound { IsSound net.now self.old }
        requires room { length self.old.sets.items < MOST_SETS }
        requires number { IsNumber self.old from }
        requires live { IsLive self.old live }
        ensures sound { IsSound net.now self.new }
        ensures live { IfOk result (IsLive self.new) }
    {
        let set = self.set_of(alloc, from, live)?;
        let next = framed_advance(alloc, net, set, symbol)?;
        let depth = self.depth_after(from);
        let made = self.number_of(alloc, net, next, depth)?;
        self.symbols.insert((from, symbol), made.number)?;
        Ok(made)
    }

    /// Makes the set after a set and a return state.
    fn make_lowered(
        &mut self,
        alloc: Global,
        net: &ParserNetwork,
        from: u32,
        state: u32,
        live: Live,
    ) -> Result<Live, AllocError>
        requires well_formed { WellFormed net.now }
        requires few { length net.now.states ≤ MOST_STATES }
        requires sound { IsSound net.now self.old }
        requires room { length self.old.sets.items < MOST_SETS }
        requires number { IsNumber self.old from }
        requires live { IsLive self.old live }
        requires state { state < length net.now.states }
        ensures sound { IsSound net.now self.new }
        ensures live { IfOk result (IsLive self.new) }
    {
        let set = self.set_of(alloc, from, live)?;
        let lowered = lower(alloc, net, &set, &[state])?;
        let depth = self.depth_after(from);
        let made = self.number_of(alloc, net, lowered, depth)?;
        self.returns.insert((from, state), made.number)?;
        Ok(made)
    }

    /// Makes a step and remembers it: the set to which it leads. Where there is no room, nothing is made, and all that is remembered is
    /// forgotten.
    pub fn make(
        &mut self,
        alloc: Global,
        net: &ParserNetwork,
        step: Step,
        live: Live,
    ) -> Result<Live, AllocError>
        requires well_formed { WellFormed net.now }
        requires loops { HasLoops net.now }
        requires few { length net.now.states ≤ MOST_STATES }
        requires sound { IsSound net.now self.old }
        requires step { CanBeMade net.now self.old step }
        requires live { IsLive self.old live }
        ensures sound { IsSound net.now self.new }
        ensures live { IfOk result (IsLive self.new) }
    {
        if !self.has_room() {
            self.forget();
            return Ok(Live::none());
        }
        match step {
            Step::Start {
                decision,
                condition,
            } => self.make_start(alloc, net, decision, condition),
            Step::Symbol { from, symbol } => self.make_next(alloc, net, from, symbol, live),
            Step::Return { from, state } => self.make_lowered(alloc, net, from, state, live),
        }
    }
}
