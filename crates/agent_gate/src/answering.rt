// Answers requests through the agent's desk.
ghost use Rattle.std.specs.Prelude.{◌≡◌, ◌<◌, Ok};
ghost use Rattle.agent_gate.specs.{IsSameDesk, desk_ids, desk_caller, floor_ids, Asks, IsItem, TakesTurn, said_of_outcome, said_of_reading};
ghost use Rattle.tac_io.specs.declared.line_got.LineGot.TheVariants as gots;

use crate::dialect::Dialect;
use floor::{CashOutcome, Desk, Floor, Outcome};
use line_protocol::{Request, Said};
use std::sync::Wait;
use std::time::Clock;
use tac_base::limits::AGENTS;

/// The reply to a call at a good.
fn said_of(outcome: Outcome) -> Said
    ensures { result ≡ said_of_outcome outcome }
{
    match outcome {
        Outcome::At { position, reply } => Said::At(position, reply),
        Outcome::Spent => Said::Spent,
    }
}

/// The reply to a reading of the agent's cash.
fn said_of_cash(outcome: CashOutcome) -> Said
    ensures { result ≡ said_of_reading outcome }
{
    match outcome {
        CashOutcome::At { position, dollars } => Said::Cash(position, dollars),
        CashOutcome::Spent => Said::Spent,
    }
}

/// Answers a request by one call of the desk; `quit` needs none.
fn answer<R: Wait + Clock>(rt: &R, floor: &Floor, desk: &mut Desk, request: Request) -> Said
    requires own { desk_ids desk.old ≡ floor_ids floor.now }
    requires agent { desk_caller desk.old < AGENTS }
    ensures turn { TakesTurn (λ item. item ≡ Asks (Ok request)) desk.old desk.new result }
    ensures same { IsSameDesk desk.old desk.new }
{
    match request {
        Request::Bid { good, points } => said_of(desk.bid(rt, floor, good, &points)),
        Request::Withdraw { good } => said_of(desk.withdraw(rt, floor, good)),
        Request::Own { good } => said_of(desk.own(rt, floor, good)),
        Request::Quote { good } => Said::Quote(desk.quote(floor, good)),
        Request::Cash => said_of_cash(desk.cash(rt, floor)),
        Request::Quit => Said::Bye,
    }
}

/// Answers a line.
pub(crate) fn answer_line<R: Wait + Clock, D: Dialect>(
    rt: &R,
    floor: &Floor,
    dialect: &D,
    desk: &mut Desk,
    line: &[u8],
) -> Said
    requires own { desk_ids desk.old ≡ floor_ids floor.now }
    requires agent { desk_caller desk.old < AGENTS }
    ensures turn { TakesTurn (IsItem (D.form dialect.now).may_answer (gots.Line, line.now)) desk.old desk.new result }
    ensures same { IsSameDesk desk.old desk.new }
{
    match dialect.read(line) {
        Ok(request) => answer(rt, floor, desk, request),
        Err(fault) => Said::Fault(fault),
    }
}
