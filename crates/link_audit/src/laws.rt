// Laws about links and what their far ends saw.
ghost use Rattle.link_audit.specs.{Said, IsOneLine, said_text, json_text, VouchesForLinks};
ghost use Rattle.link_audit.specs.Vouchings.{HasOneDifference, json, words};

use agent_gate::Dialect;

/// The law of far ends, as this call's contract: a link of a log is vouched for by the bytes that it had to give and those that it was
/// sent, if its welcome was sent whole, in each form of lines whose replies are one line each.
pub fn vouched_link<D: Dialect>()
    ensures { (dialect : D) → VouchesForLinks (D.form dialect) }
{}

/// The law of replies, as this call's contract: each is one line, in words and in JSON.
pub fn line_replies()
    ensures words { (reply : Said) → IsOneLine (said_text reply) }
    ensures json { (reply : Said) → IsOneLine (json_text reply) }
{}

/// The law of first differences, as this call's contract: a log differs from a link at one place first, in words and in JSON.
pub fn first_differences()
    ensures words { HasOneDifference words }
    ensures json { HasOneDifference json }
{}
