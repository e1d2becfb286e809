// A game over links in memory.
use agent_gate::LineDialect;
use game_run::{GameEnd, run_game};
use game_text::Game;
use line_protocol::{Cause, LogHead};
use std::alloc::{AllocError, Global};
use std::sync::Arc;
use std::sync::atomic::{AtomicU64, Ordering};
use std::test::Fail;
use tac_base::Tick;
use tac_io::{
    HeldLink, Hold, LinesSent, Look, LookingTicker, MOST_TURNS, MemLink, MemLinks, was_sent,
};

/// Shows the tick that is waited for. Tick 2 is due once a link was sent the ten lines of its welcome and a reply.
#[derive(Drop)]
struct MeetingLook {
    shown: LinesSent,
    awaited: LinesSent,
}

impl Look for MeetingLook {
    fn is_due(&mut self, _pace: Option<u16>, tick: Tick) -> bool {
        self.shown.store(u64::from(tick.get()), Ordering::SeqCst);
        tick.get() != 2 || was_sent(&mut self.awaited, 11, MOST_TURNS)
    }
}

/// The link of an agent. It is sent a reply, and asks for a quote once the count of another has reached a number.
fn held(
    alloc: Global,
    agent: u8,
    sent: &LinesSent,
    other: &LinesSent,
    lines: u64,
) -> Result<HeldLink, AllocError> {
    let mut bytes = b"hello seat".to_vec(alloc)?;
    bytes.push(b'0' + agent % 8)?;
    bytes.extend_from_slice(b"\nown 2\nquote 0\nquit\n")?;
    let link = MemLink::new(alloc, bytes, 1000, 1000, Vec::new(alloc), Vec::new(alloc))?;
    let hold = Hold {
        read: 3,
        other: Arc::try_clone(other)?,
        lines,
    };
    Ok(HeldLink::new(link, Arc::try_clone(sent)?, Some(hold)))
}

/// The links of the eight agents: each waits for the first reply to the next one, the last for tick 2 to be shown.
fn ring(alloc: Global, first: &LinesSent, shown: &LinesSent) -> Result<Vec<HeldLink>, AllocError> {
    let mut sent = Arc::try_clone(first)?;
    let mut all = Vec::new(alloc);
    for agent in 0..7u8 {
        let next = Arc::new(alloc, AtomicU64::new(0))?;
        all.push(held(alloc, agent, &sent, &next, 11)?)?;
        sent = next;
    }
    all.push(held(alloc, 7, &sent, shown, 2)?)?;
    Ok(all)
}

/// Whether all agents quit, no tick lapsed, and the last agent saw the flight of tick 1.
fn is_whole(end: &GameEnd<HeldLink>) -> bool {
    let LogHead::Serve { ends, missed, .. } = &end.head else {
        return false;
    };
    let Some(last) = end.links.get(7) else {
        return false;
    };
    ends.len() == 8
        && ends.iter().all(|end| end.1 == Cause::Quit)
        && *missed == 0
        && !last.sent().ends_with(b"@0 quote 0 300 open\nbye\n")
}

// The agents and the clock wait for one another in a ring: each agent for the first reply to the next one, the last agent for the calls of
// tick 1, and the clock for the first reply to agent 0. So none of the nine can run before or after the others.
#[test]
fn sessions_overlap(rt: HostRuntime) -> Result<(), Fail> {
    let alloc = rt.alloc();
    let shown = Arc::new(alloc, AtomicU64::new(0))?;
    let first = Arc::new(alloc, AtomicU64::new(0))?;
    let mut links = MemLinks::new(ring(alloc, &first, &shown)?, Vec::new(alloc));
    let mut ticker = LookingTicker::new(MeetingLook {
        shown,
        awaited: first,
    });
    let end = run_game(
        &rt,
        alloc,
        &Game::default(),
        7,
        &LineDialect,
        &mut links,
        &mut ticker,
    );
    assert!(rt; matches!(&end, Ok(end) if is_whole(end)));
    Ok(())
}
