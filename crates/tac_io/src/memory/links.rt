// The links in memory.
ghost use Rattle.std.specs.Prelude.{◌≡◌, [], false};
ghost use Rattle.tac_io.specs.Calls.{no_calls_yet};

use crate::memory::faults::Faults;
use crate::{Failed, Link, Links};
use std::collections::VecDeque;

/// Links of one type in memory. The caller determines which calls fail.
#[derive(Drop)]
pub struct MemLinks<L> {
    links: VecDeque<L>,
    listens: bool,
    port: Option<u16>,
    faults: Faults,
}

impl<L> MemLinks<L> {
    ghost use Rattle.tac_io.specs.MemLinks.{links_calls, links_listens, links_pending, links_ports};

    /// Returns links that give `links` in order and do not listen yet. `failing` lists the calls
    /// that are to fail; calls of `listen` and `next` are counted together, from 1.
    pub fn new(links: Vec<L>, failing: Vec<u64>) -> MemLinks<L>
        ensures listens { links_listens result ≡ false }
        ensures ports { links_ports result ≡ [] }
        ensures pending { links_pending result ≡ links.items }
        ensures calls { links_calls result ≡ no_calls_yet failing.items }
    {
        MemLinks {
            links: VecDeque::from_vec(links),
            listens: false,
            port: None,
            faults: Faults::new(failing),
        }
    }
}

impl<L: Link + Send + Drop> Links for MemLinks<L> {
    ghost use Rattle.std.specs.Prelude.{◌≡◌, ◌↔◌, ◌++◌, ◌∷◌, [], Some, IsErr, IsTrue, MatchResult};
    ghost use Rattle.tac_io.specs.Calls.{IsNextToFail, after_call};
    ghost use Rattle.tac_io.specs.Counts.{HasCause};
    ghost use Rattle.tac_io.specs.Known.{GivesNext};
    ghost use Rattle.tac_io.specs.MemLinks.{links_calls, links_listens, links_pending, links_ports};

    type Link = L;

    ghost state = { λ s. record {
      listens = links_listens s;
      ports = Some (links_ports s);
      pending = Some (links_pending s);
      faults = (links_calls s).faults;
    } };

    fn listen(&mut self, port: u16) -> Result<(), Failed>
        requires { links_ports self.old ≡ [] }
        ensures fails { IsErr result ↔ IsNextToFail (links_calls self.old) }
        ensures listens { MatchResult result
            (λ _. IsTrue (links_listens self.new))
            (λ _. links_listens self.new ≡ links_listens self.old) }
        ensures ports { links_ports self.new ≡ links_ports self.old ++ port ∷ [] }
        ensures pending { links_pending self.new ≡ links_pending self.old }
        ensures calls { links_calls self.new ≡ after_call (links_calls self.old) result }
        ensures cause { HasCause (links_calls self.old).faults (links_calls self.new).faults result }
    {
        self.port = Some(port);
        if self.faults.next_fails() {
            return Err(self.faults.add());
        }
        self.listens = true;
        Ok(())
    }

    fn next(&mut self) -> Result<Option<L>, Failed>
        requires { IsTrue (links_listens self.old) }
        ensures fails { IsErr result ↔ IsNextToFail (links_calls self.old) }
        ensures given { GivesNext (Some (links_pending self.old)) (Some (links_pending self.new)) result }
        ensures listens { IsTrue (links_listens self.new) }
        ensures ports { links_ports self.new ≡ links_ports self.old }
        ensures calls { links_calls self.new ≡ after_call (links_calls self.old) result }
        ensures cause { HasCause (links_calls self.old).faults (links_calls self.new).faults result }
    {
        if self.faults.next_fails() {
            return Err(self.faults.add());
        }
        Ok(self.links.pop_front())
    }

    fn faults(&self) -> u64 {
        self.faults.count()
    }
}
