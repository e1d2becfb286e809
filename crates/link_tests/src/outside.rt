// Files in memory, a ticker that looks, and a link that waits for another.
ghost use Rattle.std.specs.Prelude.{◌≡◌, [], IfOk, true};
ghost use Rattle.tac_io.specs.LineAnswers.{goes_on};
ghost use Rattle.tac_io.specs.Lines.{last_of};
ghost use Rattle.tac_io.specs.MemFiles.{files_names};

use std::alloc::{AllocError, Global};
use std::sync::Arc;
use std::sync::atomic::{AtomicU64, Ordering};
use std::test::Fail;
use tac_base::Tick;
use tac_io::{
    HeldLink, Hold, LineGot, Lines, LinesSent, Look, LookingTicker, MemFile, MemFiles, MemLink,
    MemTicker, Ticker, read_file,
};

// A file `long` of 200,000 bytes, of which a read gives 999.
fn long_file(alloc: Global) -> Result<MemFiles, AllocError>
    ensures { IfOk result (λ all. files_names all ≡ []) }
{
    let mut files = Vec::new(alloc);
    files.push(MemFile {
        name: String::from_str(alloc, "long")?,
        bytes: vec![in alloc; 7; 200_000]?,
    })?;
    MemFiles::new(alloc, files, 999, Vec::new(alloc))
}

// Each even tick is due at a pace of 100 milliseconds.
#[derive(Drop)]
struct EvenLook;

impl Look for EvenLook {
    fn is_due(&mut self, pace: Option<u16>, tick: Tick) -> bool {
        pace == Some(100) && tick.get() % 2 == 0
    }
}

// A link of two lines. The second arrives once another link was sent the ten lines of a welcome and a reply.
fn held(alloc: Global, sent: &LinesSent, other: u64) -> Result<HeldLink, AllocError> {
    let other = Arc::new(alloc, AtomicU64::new(other))?;
    let bytes = b"hello\nquit\n".to_vec(alloc)?;
    let link = MemLink::new(alloc, bytes, 100, 100, Vec::new(alloc), Vec::new(alloc))?;
    let sent = Arc::try_clone(sent)?;
    let hold = Hold {
        read: 2,
        other,
        lines: 11,
    };
    Ok(HeldLink::new(link, sent, Some(hold)))
}

// What comes after the first line.
fn next_two(lines: &mut Lines<HeldLink>) -> Option<LineGot>
    requires { goes_on (last_of lines.old) ≡ true }
{
    match lines.next() {
        LineGot::Line => Some(lines.next()),
        _ => None,
    }
}

// How many lines the other link was sent, how often the held read looks, and what it gives.
const SECOND_READS: &[(u64, u32, LineGot)] = &[
    (10, 5, LineGot::Failed),
    (11, 0, LineGot::Failed),
    (11, 1, LineGot::Line),
];

#[test]
fn held_reads_and_tickers_look_and_memory_suffices(rt: HostRuntime) -> Result<(), Fail> {
    let alloc = rt.alloc();
    // A held read looks for the other link's eleventh line. The three links share a count, and each is sent two whole lines at once.
    let sent = Arc::new(alloc, AtomicU64::new(0))?;
    for (other, turns, got) in SECOND_READS {
        let link = held(alloc, &sent, *other)?;
        let mut lines = Lines::new(link.giving_up_after(*turns));
        assert!(rt; next_two(&mut lines) == Some(*got));
        assert!(rt; lines.send(b"\nok\nbye").is_ok());
    }
    assert!(rt; sent.load(Ordering::SeqCst) == 6);
    // A ticker that looks lapses where no tick is due.
    let (second, third) = (Tick::new(2)?, Tick::new(3)?);
    let mut ticker = LookingTicker::new(EvenLook);
    assert!(rt; ticker.wait(&rt, second).is_err());
    ticker.pace(100);
    assert!(rt; ticker.wait(&rt, second).is_ok());
    assert!(rt; ticker.wait(&rt, third).is_err());
    assert!(rt; ticker.faults() == 2);
    // Each call that allocates memory has enough for a file and a ticker.
    let mut files = long_file(alloc)?;
    let bytes = read_file(alloc, &mut files, "long", 200_000)?;
    assert!(rt; bytes.len() == 200_000);
    assert!(rt; MemTicker::new(alloc, Vec::new(alloc)).is_ok());
    Ok(())
}
