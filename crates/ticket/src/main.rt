// ticket: tells an MT 511 text in plain words, or makes one from name=value words
#![tactic(auto)]

mod made;
mod numbers;
mod refused;
mod told;

use made::{Slip, make_trade};
use refused::{tell_text_fault, tell_write_fault};
use std::alloc::AllocError;
use std::io::{Read, Write};
use std::process::ExitCode;
use std::{env, fmt, fs, io};
use told::tell_trade;
use trade::reading::{Trade, read_trade};

// Why a call fails.
#[derive(Drop)]
enum Failure {
    // no memory, or standard input or output gives out
    Stream(io::Error),
    // the file of this name cannot be read
    File(String, io::Error),
    // the words of --make say no trade
    Words(Slip),
}

impl From<io::Error> for Failure {
    fn from(e: io::Error) -> Failure {
        Failure::Stream(e)
    }
}

impl From<AllocError> for Failure {
    fn from(e: AllocError) -> Failure {
        Failure::Stream(e.into())
    }
}

impl fmt::Display for Failure {
    fn fmt<W: fmt::Write>(&self, f: &mut fmt::Formatter<W>) -> fmt::Result {
        match self {
            Failure::Stream(e) => write!(f, "{e}"),
            Failure::File(name, e) => write!(f, "cannot read {name}: {e}"),
            Failure::Words(slip) => write!(f, "{slip}"),
        }
    }
}

// What went wrong is told on standard error. (inspect ends likewise; a program is a crate of its own.)
fn main(rt: HostRuntime) -> ExitCode {
    match run(&rt) {
        Ok(status) => status,
        Err(failure) => {
            let _told = eprintln!(rt; "ticket: {failure}").is_ok();
            ExitCode::FAILURE
        }
    }
}

fn usage(rt: &HostRuntime) -> io::Result<()> {
    eprintln!(rt; "usage: ticket [FILE ...] [--make WORDS]")?;
    eprintln!(rt;
        "Each file is one MT 511 text, told in plain words; with no file and no --make, standard input is."
    )?;
    eprintln!(rt;
        "--make makes a text: WORDS are name=value, or names of files with such words, one a line."
    )?;
    eprintln!(rt;
        "Names that must be given: counterparty (buys or sells), place, kind, nominal, isin, currency, price, member, with."
    )?;
    eprintln!(rt;
        "Others: on_exchange, traded, time, closing, settlement (FO, FV or FZ), value_date, new_issue,"
    )?;
    eprintln!(rt;
        "interest_days, discount_days, discount, bonus, brokerage (an amount, free, free_of_all or half),"
    )?;
    eprintln!(rt; "expenses, commission, commission_per_mille, note, rate.")?;
    eprintln!(rt;
        "Dates are 2026-04-01, times 09:15, numbers 12.5; yes switches on_exchange and new_issue on."
    )
}

// The files and words of the call, in their order.
fn run(rt: &HostRuntime) -> Result<ExitCode, Failure> {
    let heap = rt.alloc();
    let mut words = env::args(rt)?;
    let _program = words.next();
    let mut making = false;
    let mut any = false;
    let mut given = Vec::new(heap);
    for word in words {
        if making {
            gather(rt, &mut given, word)?;
        } else if word.as_str() == "--make" {
            making = true;
        } else if word.as_str() == "--help" || word.as_str() == "-h" {
            usage(rt)?;
            return Ok(ExitCode::SUCCESS);
        } else if word.as_str().starts_with('-') {
            usage(rt)?;
            return Ok(ExitCode::FAILURE);
        } else {
            any = true;
            tell_text(rt, &read_file(rt, word)?)?;
        }
    }
    if making {
        let trade = make_trade(&given).map_err(Failure::Words)?;
        write_text(rt, &trade)?;
    } else if !any {
        let mut text = Vec::new(heap);
        rt.stdin().read_to_end(&mut text)?;
        tell_text(rt, &text)?;
    }
    Ok(ExitCode::SUCCESS)
}

fn read_file(rt: &HostRuntime, name: String) -> Result<Vec<u8>, Failure> {
    fs::read(rt, name.as_str()).map_err(|e| Failure::File(name, e))
}

// A word of --make, or the words of a file, one a line.
fn gather(rt: &HostRuntime, given: &mut Vec<u8>, word: String) -> Result<(), Failure> {
    if word.as_str().contains('=') {
        given.extend_from_slice(word.as_bytes())?;
    } else {
        given.extend_from_slice(&read_file(rt, word)?)?;
    }
    given.extend_from_slice(b"\n")?;
    Ok(())
}

// A text in plain words, and as we would write it; or why it is refused.
fn tell_text(rt: &HostRuntime, text: &[u8]) -> io::Result<()> {
    match read_trade(text) {
        Ok(trade) => {
            tell_trade(rt, &trade)?;
            println!(rt; "as we would write it:")?;
            write_text(rt, &trade)
        }
        Err(fault) => tell_text_fault(rt, text, fault.into()),
    }
}

// The text of a trade, as it goes to the exchange. Its memory is lent from here, since a library call allocates nothing.
fn write_text(rt: &HostRuntime, trade: &Trade<'_>) -> io::Result<()> {
    let mut out = [0u8; 320];
    match trade.write(&mut out) {
        Ok(n) => rt.stdout().write_all(out.get(..n).unwrap_or_default()),
        Err(fault) => tell_write_fault(rt, fault.into()),
    }
}
