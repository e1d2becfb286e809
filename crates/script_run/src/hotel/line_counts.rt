// Counts the lines of a hotel script.
ghost use Rattle.std.specs.Prelude.{◌≡◌, ◌≤◌, ◌<◌, [], List, length};
ghost use Rattle.script_run.specs.HotelScripts.{judge_hotel_line, limited_hotel_line};
ghost use Rattle.script_run.specs.Prelude.{cap, AUCTION_ENTRIES};
ghost use Rattle.script_run.specs.ScriptLines.{CountsLine};

use crate::ScriptReason;
use crate::hotel::lines::{HotelLine, line_of};
use tac_base::Caller;
use tac_base::limits::{AGENT_CALLS, AUCTION_ENTRIES, CLOCK_CALLS};

/// The number of lines, in all and of each caller.
#[derive(Drop)]
pub(crate) struct LineCounts {
    all: u32,
    of_caller: [u32; 9],
    ghost few: { all ≤ AUCTION_ENTRIES },
}

/// The most lines of a caller: those of an agent, or of the clock.
fn most_lines(caller: Caller) -> u32
    ensures { result ≡ cap caller }
{
    if caller.get() == 8 {
        CLOCK_CALLS
    } else {
        AGENT_CALLS
    }
}

impl LineCounts {
    ghost use Rattle.script_run.specs.LineCounts.{AreLineCounts};

    pub(crate) fn new() -> LineCounts
        ensures { AreLineCounts [] result }
    {
        LineCounts {
            all: 0,
            of_caller: [0; 9],
        }
    }

    /// The number of lines.
    pub(crate) fn all(&self) -> u32
        ensures value { (lines : List HotelLine) → AreLineCounts lines self.now → result ≡ length lines }
        ensures few { result ≤ AUCTION_ENTRIES }
    {
        self.all
    }

    /// Counts a line and returns what it requests, or returns the first reason why it is bad.
    pub(crate) fn judge(&mut self, line: &[u8]) -> Result<HotelLine, ScriptReason>
        ensures { CountsLine AreLineCounts judge_hotel_line line.now self.old self.new result }
    {
        match line_of(line) {
            Ok(line) => self.admit(line),
            Err(reason) => Err(reason),
        }
    }

    /// Counts a line if it is not one too many, or returns the reason.
    fn admit(&mut self, line: HotelLine) -> Result<HotelLine, ScriptReason>
        ensures { CountsLine AreLineCounts limited_hotel_line line self.old self.new result }
    {
        if self.all >= AUCTION_ENTRIES {
            return Err(ScriptReason::TooMany);
        }
        let caller = line.caller();
        let count = self.of_caller[caller.get() as usize];
        if count >= most_lines(caller) {
            return Err(ScriptReason::TooManyOfCaller);
        }
        self.of_caller[caller.get() as usize] = count + 1;
        self.all += 1;
        Ok(line)
    }
}
