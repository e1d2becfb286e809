// The table at which the agents and the clock play.
ghost use Rattle.std.specs.Prelude.{◌≡◌, ◌+◌, ◌-◌, drop, IfOk};
ghost use Rattle.script_run.specs.{IsFit, calls_at, opening, call_turn, cash_turn, turn, clocked, ticked, closed_of, ticked_often, HasClockRoom};

use crate::game::call_counts::CallCounts;
use crate::game::open_game::OpenGame;
use auction_core::Closed;
use clock_events::{schedule, schedule_law};
use game_text::Game;
use line_protocol::{Request, RequestFault, Said};
use std::alloc::Global;
use std::marker::Model;
use tac_base::limits::{AGENT_CALLS, CASH_READINGS, TICKS};
use tac_base::{Agent, Call, Caller, Good, Memory, Tick};

/// The most calls of the clock at a tick.
const MOST_TICK_CALLS: u8 = 20;

/// A game in progress, with the counts of what each agent has requested.
#[derive(Drop)]
pub(crate) struct Table<'a> {
    open: OpenGame<'a>,
    calls: CallCounts,
    readings: [u32; 8],
}

impl<'a> Model for Table<'a> {
    ghost use Rattle.script_run.specs.OpenGames.{SeenGame};
    ghost use Rattle.script_run.specs.Tables.{AreCounted};

    ghost Value = { SeenGame };

    ghost view = { λ t. t.open };

    ghost invariant = { λ t. AreCounted t.open.game t.open.state t.calls t.readings };
}

impl<'a> Table<'a> {
    /// Sets the table, before the first call.
    pub(crate) fn begin(alloc: Global, game: &'a Game) -> Result<Table<'a>, Memory>
        ensures { IfOk result (λ table. (table.game ≡ game.now) × (table.state ≡ opening)) }
    {
        let open = OpenGame::begin(alloc, game)?;
        Ok(Table {
            open,
            calls: CallCounts::new(),
            readings: [0; 8],
        })
    }

    /// Makes an agent's call in a good's auction, if the agent has calls left there.
    fn call(&mut self, agent: Agent, good: Good, call: &Call) -> Said
        requires { IsFit call.now }
        ensures game { self.new.game ≡ self.old.game }
        ensures answered { (result, self.new.state) ≡ call_turn self.old.game agent good call.now self.old.state }
    {
        if self.calls.count(agent, good) >= AGENT_CALLS {
            return Said::Spent;
        }
        self.calls.add(agent, good);
        let (position, reply) = self.open.call(agent.caller(), good, call);
        Said::At(position, reply)
    }

    /// Makes an agent's reading of its cash, if the agent has readings left.
    fn read(&mut self, agent: Agent) -> Said
        ensures game { self.new.game ≡ self.old.game }
        ensures answered { (result, self.new.state) ≡ cash_turn agent self.old.state }
    {
        let place = usize::from(agent.get());
        let count = self.readings[place];
        if count >= CASH_READINGS {
            return Said::Spent;
        }
        self.readings[place] = count + 1;
        let (position, dollars) = self.open.read(agent);
        Said::Cash(position, dollars)
    }

    /// Does what an agent requests, and returns the reply.
    pub(crate) fn answer(&mut self, agent: Agent, asked: &Result<Request, RequestFault>) -> Said
        ensures game { self.new.game ≡ self.old.game }
        ensures answered { (result, self.new.state) ≡ turn self.old.game agent asked.now self.old.state }
    {
        match asked {
            Ok(Request::Bid { good, points }) => {
                self.call(agent, *good, &Call::Bid(points.copy()))
            }
            Ok(Request::Withdraw { good }) => self.call(agent, *good, &Call::Withdraw),
            Ok(Request::Own { good }) => self.call(agent, *good, &Call::Own),
            Ok(Request::Quote { good }) => Said::Quote(self.open.quote(*good)),
            Ok(Request::Cash) => self.read(agent),
            Ok(Request::Quit) => Said::Bye,
            Err(fault) => Said::Fault(*fault),
        }
    }

    /// Makes the n-th call of the clock at the tick that has begun, if there is one.
    fn clock_call(&mut self, tick: Tick, n: u8)
        requires tick { tick ≡ self.old.state.ticks }
        requires room { HasClockRoom self.old.game self.old.state (drop n (calls_at self.old.game tick)) }
        ensures game { self.new.game ≡ self.old.game }
        ensures ticks { self.new.state.ticks ≡ self.old.state.ticks }
        ensures room { HasClockRoom self.old.game self.new.state (drop (n + 1) (calls_at self.old.game tick)) }
        ensures state { clocked self.old.game (drop (n + 1) (calls_at self.old.game tick)) self.new.state
            ≡ clocked self.old.game (drop n (calls_at self.old.game tick)) self.old.state }
    {
        let game = self.open.game();
        schedule_law(game);
        match &schedule(game, tick, n) {
            Some((good, call)) => {
                self.open.call(Caller::clock(), *good, call);
            }
            None => {}
        }
    }

    /// Makes the calls of the tick that has begun.
    fn clock_calls(&mut self, tick: Tick)
        requires tick { tick ≡ self.old.state.ticks }
        requires room { HasClockRoom self.old.game self.old.state (calls_at self.old.game tick) }
        ensures game { self.new.game ≡ self.old.game }
        ensures state { self.new.state ≡ clocked self.old.game (calls_at self.old.game tick) self.old.state }
    {
        schedule_law(self.open.game());
        for n in 0..MOST_TICK_CALLS {
            self.clock_call(tick, n);
        }
    }

    /// Makes the calls of the next tick, if one is left.
    pub(crate) fn tick(&mut self)
        ensures game { self.new.game ≡ self.old.game }
        ensures state { self.new.state ≡ ticked self.old.game self.old.state }
    {
        schedule_law(self.open.game());
        match self.open.begin_tick() {
            Some(tick) => self.clock_calls(tick),
            None => {}
        }
    }

    /// Makes the remaining ticks.
    pub(crate) fn finish(&mut self)
        ensures game { self.new.game ≡ self.old.game }
        ensures state { self.new.state ≡ ticked_often self.old.game (TICKS - self.old.state.ticks) self.old.state }
    {
        for _made in 0..TICKS - self.open.ticks() {
            self.tick();
        }
    }

    /// Returns the histories, once all calls are made.
    pub(crate) fn close(self) -> Closed
        ensures { result ≡ closed_of self.entry.game self.entry.state }
    {
        self.open.close()
    }
}
