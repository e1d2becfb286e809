// The links of the outside.
ghost use Rattle.std.specs.Prelude.{◌≡◌, ◌∷◌, [], IsTrue, IfSome, MatchResult};
ghost use Rattle.tac_io.specs.{GivesNext, HasCause, LinksState, known_then};

use crate::{Failed, Link};

/// Where agents connect.
pub trait Links {
    /// A connection. It can move to another thread.
    type Link: Link + Send + Drop;

    /// Whether it listens; the ports that `listen` was called with, and the links that it has yet
    /// to give, if known; and the count of faults, which never falls and stays at its
    /// maximum.
    ghost state: { Self → LinksState Self.Link };

    /// Starts to listen on a TCP port, once only. After a fault it listens if it did before.
    fn listen(&mut self, port: u16) -> Result<(), Failed>
        requires { IfSome (state self.old).ports (λ ports. ports ≡ []) }
        ensures listens { MatchResult result
            (λ _. IsTrue (state self.new).listens)
            (λ _. (state self.new).listens ≡ (state self.old).listens) }
        ensures ports { (state self.new).ports ≡ known_then (state self.old).ports (port ∷ []) }
        ensures pending { (state self.new).pending ≡ (state self.old).pending }
        ensures cause { HasCause (state self.old).faults (state self.new).faults result };

    /// Returns the next link, or `None` if none is left. It may wait for a peer. After a fault the
    /// remaining links are the same.
    fn next(&mut self) -> Result<Option<Self::Link>, Failed>
        requires { IsTrue (state self.old).listens }
        ensures given { GivesNext (state self.old).pending (state self.new).pending result }
        ensures listens { IsTrue (state self.new).listens }
        ensures ports { (state self.new).ports ≡ (state self.old).ports }
        ensures cause { HasCause (state self.old).faults (state self.new).faults result };

    /// Returns how many calls have failed.
    fn faults(&self) -> u64
        ensures { result ≡ (state self.now).faults };
}
