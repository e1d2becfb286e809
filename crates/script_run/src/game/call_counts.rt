// Counts the calls that the agents have made.
ghost use Rattle.std.specs.Prelude.{◌≡◌, ℕ, ◌+◌, ◌<◌, ◌≤◌, ◌==◌, ◌&&◌, if◌then◌else◌, slice_index};
ghost use Rattle.script_run.specs.CallCounts.{count_at};
ghost use Rattle.tac_base.specs.declared.limits.TheConstants.{AGENT_CALLS};

use tac_base::{Agent, Good};

/// The number of calls that an agent has made in each good's auction.
#[derive(Clone, Copy)]
pub(crate) struct GoodCounts {
    calls: [u32; 28],
}

/// The number of calls that each agent has made in each good's auction.
#[derive(Drop)]
pub(crate) struct CallCounts {
    of_agent: [GoodCounts; 8],
}

impl GoodCounts {
    /// Starts with no calls.
    fn new() -> GoodCounts
        ensures { (good : ℕ) → slice_index result.calls good ≡ 0 }
    {
        GoodCounts { calls: [0; 28] }
    }

    /// The number of calls made in the good's auction.
    fn count(&self, good: Good) -> u32
        ensures { result ≡ slice_index self.now.calls good }
    {
        self.calls[usize::from(good.get())]
    }

    /// Counts a call.
    fn add(&mut self, good: Good)
        requires { slice_index self.old.calls good < AGENT_CALLS }
        ensures { (place : ℕ) → place ≤ 27 → slice_index self.new.calls place ≡ slice_index self.old.calls place + (if good == place then 1 else 0) }
    {
        self.calls[usize::from(good.get())] += 1;
    }
}

impl CallCounts {
    /// Starts with no calls of any agent.
    pub(crate) fn new() -> CallCounts
        ensures { (agent good : ℕ) → count_at result agent good ≡ 0 }
    {
        CallCounts {
            of_agent: [GoodCounts::new(); 8],
        }
    }

    /// The number of calls that the agent has made in the good's auction.
    pub(crate) fn count(&self, agent: Agent, good: Good) -> u32
        ensures { result ≡ count_at self.now agent good }
    {
        self.of_agent[usize::from(agent.get())].count(good)
    }

    /// Counts a call.
    pub(crate) fn add(&mut self, agent: Agent, good: Good)
        requires { count_at self.old agent good < AGENT_CALLS }
        ensures { (other place : ℕ) → other ≤ 7 → place ≤ 27 →
            count_at self.new other place ≡ count_at self.old other place + (if (agent == other) && (good == place) then 1 else 0) }
    {
        self.of_agent[usize::from(agent.get())].add(good);
    }
}
