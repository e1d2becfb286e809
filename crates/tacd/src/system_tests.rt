// The system's files, output, links and ticker.
use crate::host_files::HostFiles;
use crate::sleep_ticker::SleepTicker;
use crate::std_sink::StdSink;
use crate::tcp_links::{TcpLink, TcpLinks};
use std::env::Env;
use std::fs::File;
use std::io::{Read, Write};
use std::net::{Net, TcpListener, TcpStream};
use std::process::Abort;
use std::time::Instant;
use std::{fs, rt};
use tac_base::Tick;
use tac_io::{Files, Link, Links, Sink, Ticker, read_file};

// Writes a line to a file of the system, and returns how many bytes its sink took, and how many faults it counts.
fn write_line<R: rt::Files<File = File> + Abort>(rt: &R, name: &str) -> (Option<usize>, u64) {
    let mut sink = StdSink::new(File::create(rt, name).expect(rt, name));
    let taken = sink.write(b"close\n").ok();
    (taken, sink.faults())
}

#[test]
fn files_and_output_pass_bytes_on_and_count_faults(rt: HostRuntime) {
    let name = "written-by-a-test";
    assert!(rt; write_line(&rt, name) == (Some(6), 0));
    assert!(rt; write_line(&rt, "/dev/full") == (None, 1));
    let mut files = HostFiles::new(&rt);
    let bytes = read_file(rt.alloc(), &mut files, name, 6).expect(&rt, name);
    assert!(rt; bytes.as_slice() == b"close\n".as_slice());
    fs::remove_file(&rt, name).expect(&rt, name);
    assert!(rt; files.select("no-such-file-of-a-test").is_err() && files.faults() == 1);
    // A folder can be opened, but not read.
    assert!(rt; read_file(rt.alloc(), &mut files, ".", 6).is_err() && files.faults() == 2);
}

// A client at a port, on which nobody else can then listen, and its link.
fn met<R: Net<Listener = TcpListener, Stream = TcpStream> + Env + Abort>(
    rt: &R,
    port: u16,
) -> (TcpStream, TcpLink<TcpStream>) {
    let mut links = TcpLinks::new(rt);
    assert!(rt; links.listen(port).is_ok());
    let mut others = TcpLinks::new(rt);
    assert!(rt; others.listen(port).is_err() && others.faults() == 1);
    let client = TcpStream::connect(rt, ("127.0.0.1", port)).expect(rt, "a client");
    let link = links.next().expect(rt, "no fault").expect(rt, "a link");
    assert!(rt; links.faults() == 0);
    (client, link)
}

#[test]
fn links_come_over_the_loopback_and_a_reset_is_a_fault(rt: HostRuntime) {
    let (mut client, mut link) = met(&rt, 28471);
    let mut into = [0u8; 16];
    client.write_all(b"hello\n").expect(&rt, "sent");
    assert!(rt; link.read(&mut into) == Ok(6) && into.starts_with(b"hello\n"));
    assert!(rt; link.write(b"x\n") == Ok(2));
    client.read_exact(&mut into[..2]).expect(&rt, "read");
    assert!(rt; into.starts_with(b"x\nllo\n"));
    drop(client);
    assert!(rt; link.read(&mut into) == Ok(0));
    assert!(rt; link.faults() == 0 && link.write_faults() == 0);
    let (mut client, mut link) = met(&rt, 28472);
    let mut into = [0u8; 2];
    assert!(rt; link.write(b"xyz\n") == Ok(4));
    client.read_exact(&mut into).expect(&rt, "read");
    // A peer that leaves with bytes unread resets its connection.
    drop(client);
    assert!(rt; link.read(&mut into).is_err());
    assert!(rt; link.faults() == 1 && link.write_faults() == 0);
}

#[test]
fn ticks_come_a_pace_apart(rt: HostRuntime) {
    for pace in [1u8, 100] {
        let mut ticker = SleepTicker::new();
        ticker.pace(u16::from(pace));
        let start = Instant::now(&rt).expect(&rt, "a time");
        for number in 1..4u8 {
            let tick = Tick::new(number).expect(&rt, "a tick");
            assert!(rt; ticker.wait(&rt, tick).is_ok());
            // No tick comes before its time.
            let passed = start.elapsed(&rt).expect(&rt, "a time");
            assert!(rt; passed.as_millis() >= u128::from(pace) * u128::from(number));
        }
        assert!(rt; ticker.faults() == 0);
    }
}
