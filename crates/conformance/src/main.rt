// conformance: answers requests on standard input, one a line, so that another implementation can be held against this one
#![tactic(auto)]

mod words;

use frame::arrival::{Arrival, Circle, judge};
use frame::faults::LineFault;
use frame::kinds::{Kind, Mark, Osn};
use frame::session::{Asked, Leaving, Off, Open};
use frame::write::{Heading, write_frame};
use notation::refusals::Refusal;
use std::alloc::{AllocError, Global};
use std::io;
use std::io::{BufRead, BufReader};
use trade::reading::read_trade;
use words::{decode_hex, read_member, read_number};

// What a line asks, of the bytes that are its last word.
#[derive(Clone, Copy, PartialEq, Eq, Debug)]
enum Request {
    // A MEMBER FIRST LAST HEX: a frame is judged
    Judge { member: u16, circle: Circle },
    // O MEMBER HEX: an asked session is handed a frame
    Open { member: u16 },
    // C MEMBER HEX: a leaving session is handed a frame
    Close { member: u16 },
    // R HEX: a text is read, and written as we would write the trade that it means
    Read,
}

// What a request is answered with, where it is not refused.
#[derive(Drop)]
enum Reply<'a> {
    Taken(Arrival),
    Done,
    Written(&'a [u8]),
}

fn main(rt: HostRuntime) -> anyhow::Result<()> {
    run(&rt)
}

fn run(rt: &HostRuntime) -> anyhow::Result<()> {
    let heap = rt.alloc();
    let mut input = BufReader::new(heap, rt.stdin())?;
    // all lines are read into one memory, where the library's `split` takes a new one for each, and more in all
    let mut line = Vec::new(heap);
    for _ in 0..u64::MAX {
        line.clear();
        if input.read_until(b'\n', &mut line)? == 0 {
            break;
        }
        // an output is lent by who calls, since a library call allocates nothing
        let mut out = [0u8; 320];
        let reply = match read_request(heap, line.strip_suffix(b"\n").unwrap_or(&line))? {
            Some((request, bytes)) => answer(request, &bytes, &mut out),
            None => Err(LineFault::Unknown.into()),
        };
        tell(rt, reply)?;
    }
    Ok(())
}

// The request of a line and the bytes that it is about, if it is one.
fn read_request(heap: Global, line: &[u8]) -> Result<Option<(Request, Vec<u8>)>, AllocError> {
    let Ok(line) = str::from_utf8(line) else {
        return Ok(None);
    };
    // the bytes are the last word, and are read once the words before them are known to ask something
    let Some((front, last)) = line.rsplit_once(' ') else {
        return Ok(None);
    };
    let Some(request) = read_words(front) else {
        return Ok(None);
    };
    let bytes = decode_hex(heap, last)?;
    Ok(bytes.map(|bytes| (request, bytes)))
}

// What these words ask, if they ask something.
fn read_words(front: &str) -> Option<Request> {
    let mut words = front.split(' ');
    let request = match words.next()? {
        "A" => Request::Judge {
            member: read_member(words.next()?)?,
            circle: Circle {
                first: Osn(read_number(words.next()?)?),
                last: Osn(read_number(words.next()?)?),
            },
        },
        "O" => Request::Open {
            member: read_member(words.next()?)?,
        },
        "C" => Request::Close {
            member: read_member(words.next()?)?,
        },
        "R" => Request::Read,
        _ => return None,
    };
    words.next().is_none().then_some(request)
}

fn answer<'a>(
    request: Request,
    bytes: &[u8],
    out: &'a mut [u8; 320],
) -> Result<Reply<'a>, Refusal> {
    match request {
        Request::Judge { member, circle } => Ok(Reply::Taken(judge(bytes, member, circle)?)),
        Request::Open { member } => {
            ask(member)?.accept(bytes).map_err(|(_, fault)| fault)?;
            Ok(Reply::Done)
        }
        Request::Close { member } => {
            leaving(member)?.accept(bytes).map_err(|(_, fault)| fault)?;
            Ok(Reply::Done)
        }
        Request::Read => {
            let n = read_trade(bytes)?.write(out)?;
            Ok(Reply::Written(&out[..n]))
        }
    }
}

// A session of this member that has logged on, was confirmed, and has logged off.
fn leaving(member: u16) -> Result<Leaving, LineFault> {
    let asked = ask(member)?;
    let open = confirm(asked, member)?;
    leave(open)
}

fn ask(member: u16) -> Result<Asked, LineFault> {
    let mut out = [0u8; 23];
    let (asked, _) = Off::new(member)?
        .log_on(&mut out)
        .map_err(|(_, fault)| fault)?;
    Ok(asked)
}

fn confirm(asked: Asked, member: u16) -> Result<Open, LineFault> {
    let mut out = [0u8; 23];
    write_frame(
        &mut out,
        Heading {
            member,
            kind: Kind::LoggedOn,
            number: 0,
            mark: Mark::Fresh,
        },
        &[],
    )?;
    asked.accept(&out).map_err(|(_, fault)| fault)
}

fn leave(open: Open) -> Result<Leaving, LineFault> {
    let mut out = [0u8; 23];
    let (leaving, _) = open.log_off(&mut out).map_err(|(_, fault)| fault)?;
    Ok(leaving)
}

fn tell(rt: &HostRuntime, reply: Result<Reply<'_>, Refusal>) -> anyhow::Result<()> {
    match reply {
        Ok(Reply::Done) => println!(rt; "ok")?,
        Ok(Reply::Written(text)) => println!(rt; "ok {}", hex::encode(rt.alloc(), text)?)?,
        Ok(Reply::Taken(arrival)) => tell_arrival(rt, arrival)?,
        Err(refusal) => println!(rt; "x {} {} {}", refusal.number, refusal.layer, refusal.offset)?,
    }
    Ok(())
}

fn tell_arrival(rt: &HostRuntime, arrival: Arrival) -> io::Result<()> {
    let number = arrival.number.0;
    let code = arrival.kind.code();
    let at = arrival.text;
    match arrival.answer {
        None => println!(rt; "ok {number} {code:03} {at}"),
        Some(answer) => {
            let letter = u8::from(answer.verdict) as char;
            println!(rt; "ok {number} {code:03} {at} {} {letter}", answer.isn.0)
        }
    }
}
