// Laws about served games and their links.
ghost use Rattle.tacd.specs.Prelude.{LinksState, GameFile, GameEnd, IsGameEnd, Outside, Service};
ghost use Rattle.tacd.specs.declared.answer.Answer.{Answer};
ghost use Rattle.tacd.specs.{Serves, hosted_by};
ghost use Rattle.tacd.specs.ServedLinks.{AreLinksOfLog, IsVouchedService, HasLog};

use tac_io::Link;

/// The law of served links, as this call's contract: each link of a served game that has a seat and whose bytes are known is a link of
/// the game's log, with any sheet.
pub(crate) fn served_links<L: Link>()
    ensures { (service : Service) (game : GameFile) (links links' : LinksState L) (end : GameEnd L) (is : IsGameEnd L.state (hosted_by service game) links links' end) → AreLinksOfLog L.state is }
{}

/// The law of vouched services, as this call's contract: the log of each game served by a service that ends with code 0 or 6 is
/// vouched for by the bytes of each link with a seat, if they are known and its welcome was sent whole.
pub(crate) fn vouched_services<L: Link>()
    ensures { (service : Service) (before after : Outside L) (answer : Answer L) → Serves L.state service before after answer → HasLog answer.code → IsVouchedService L.state service before after answer }
{}
