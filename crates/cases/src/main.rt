//! Runs files of cases and writes what came of each: outcome, reply length, reply in hexadecimal.
//!
//! A file is run from a fresh store, at station 1,2 and from 2000-01-01 00:00:00 on; a second passes before each case.
#![tactic(auto)]

mod records;

use records::Record;
use std::fs::File;
use std::io::{self, Read};
use std::rt::Files;

/// What a run of cases changes.
#[derive(Drop)]
struct Station {
    store: [u8; store::LENGTH],
    clock: [u8; 7],
}

/// Writes the outcome, the reply's length and the reply in hexadecimal, piece by piece: where a write fails, what came before it stands.
fn tell(rt: &impl Print, outcome: u8, reply: &[u8]) -> io::Result<()> {
    print!(rt; "{outcome} {}", reply.len())?;
    if !reply.is_empty() {
        print!(rt; " ")?;
    }
    for byte in reply {
        print!(rt; "{byte:02x}")?;
    }
    println!(rt)
}

fn run_case(rt: &impl Print, record: &Record, station: &mut Station) -> io::Result<()> {
    gateway::tyurkanim_tick(&mut station.clock);
    let mut reply = [0u8; frame::LONGEST];
    let mut length: u16 = 0;
    let outcome = gateway::tyurkanim_request(
        record.frame(),
        &mut station.store,
        &mut station.clock,
        1,
        2,
        record.level(),
        &mut reply,
        &mut length,
    );
    tell(
        rt,
        outcome,
        &reply[..usize::from(length).min(frame::LONGEST)],
    )
}

// A proved loop has to end, and nothing says that a file does: so the turns are counted, up to a number that no file uses up.
fn run_all(rt: &impl Print, cases: &mut impl Read, station: &mut Station) -> io::Result<()> {
    for _ in 0..u64::MAX {
        let Some(record) = Record::read(cases) else {
            break;
        };
        run_case(rt, &record, station)?;
    }
    Ok(())
}

// A file that cannot be opened is told of on the standard error, and none of its cases is run.
fn run(rt: &(impl Files + Print + Eprint), name: &str) -> io::Result<()> {
    println!(rt; "{name}")?;
    match File::open(rt, name) {
        Ok(mut cases) => {
            let mut station = Station {
                store: [0u8; store::LENGTH],
                clock: [0, 0, 0, 1, 1, 208, 7],
            };
            gateway::tyurkanim_fill(&mut station.store);
            run_all(rt, &mut cases, &mut station)
        }
        Err(error) => eprintln!(rt; "{name}: {error}"),
    }
}

// A read of 56 parameters of type 98 gives 254 data bytes, and one of 57 would give 258; 63 parameters named by opcode 180 give 253, and 64 would
// give 257. Then frames from the Rust program.
fn main(rt: HostRuntime) -> io::Result<()> {
    let names = [
        "167-count-56",
        "167-count-57",
        "180-count-63",
        "180-count-64",
        "frames",
    ];
    for name in names {
        run(&rt, name)?;
    }
    Ok(())
}
