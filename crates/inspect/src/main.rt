// inspect: tells what each captured frame says, or why it would be turned away
#![tactic(auto)]

mod options;
mod told;

use frame::arrival::{Message, read_message};
use frame::faults::LineFault;
use options::{Options, read_options};
use std::io::{BufRead, BufReader, Read};
use std::process::ExitCode;
use std::{fs, io};
use told::Tally;

// What went wrong has been told on standard error, so a failure says no more. (ticket ends likewise; a program is a crate of its own.)
fn main(rt: HostRuntime) -> ExitCode {
    match run(&rt) {
        Ok(status) => status,
        Err(e) => {
            let _told = eprintln!(rt; "inspect: {e}").is_ok();
            ExitCode::FAILURE
        }
    }
}

// A failure where a frame could not be read; standard error has been told why.
fn run(rt: &HostRuntime) -> io::Result<ExitCode> {
    let Some(options) = read_options(rt)? else {
        eprintln!(rt; "inspect: the call is not understood")?;
        usage(rt)?;
        return Ok(ExitCode::FAILURE);
    };
    if options.help {
        usage(rt)?;
        return Ok(ExitCode::SUCCESS);
    }
    let mut inspector = Inspector {
        rt,
        options: &options,
        tally: Tally::new(),
    };
    if options.files.is_empty() {
        inspector.lines(rt.stdin())?;
    }
    for name in options.files.iter() {
        if let Err(e) = inspector.file(name.as_str()) {
            eprintln!(rt; "inspect: cannot read {name}: {e}")?;
            return Ok(ExitCode::FAILURE);
        }
    }
    inspector.tally.tell(rt)?;
    Ok(ExitCode::SUCCESS)
}

fn usage(rt: &HostRuntime) -> io::Result<()> {
    eprintln!(rt; "usage: inspect [--member NNNN] [--circle FIRST-LAST] [--whole] [FILE ...]")?;
    eprintln!(rt;
        "Frames come one a line, from the files or from standard input; a line ends at LF alone."
    )?;
    eprintln!(rt; "With --whole each file is one frame, with every byte as it stands.")?;
    eprintln!(rt; "The member is 7999 and the circle 600001-999999 unless they are given.")
}

// Tells frame after frame, and counts them.
#[derive(Drop)]
struct Inspector<'a> {
    rt: &'a HostRuntime,
    options: &'a Options,
    tally: Tally,
}

impl Inspector<'_> {
    fn file(&mut self, name: &str) -> io::Result<()> {
        if self.options.whole {
            self.frame(&fs::read(self.rt, name)?)
        } else {
            self.lines(fs::open(self.rt, name)?)
        }
    }

    // One frame a line; a line ends at LF, and a CR before it is a byte of the frame. All lines are read into one memory, where the
    // library's `split` takes a new one for each, and more in all.
    fn lines<R: Read + Drop>(&mut self, input: R) -> io::Result<()> {
        let heap = self.rt.alloc();
        let mut input = BufReader::new(heap, input)?;
        let mut line = Vec::new(heap);
        for _ in 0..u64::MAX {
            line.clear();
            if input.read_until(b'\n', &mut line)? == 0 {
                break;
            }
            self.frame(line.strip_suffix(b"\n").unwrap_or(&line))?;
        }
        Ok(())
    }

    fn frame(&mut self, frame: &[u8]) -> io::Result<()> {
        match take(frame, self.options) {
            Ok(message) => self.tally.tell_message(self.rt, &message),
            Err(fault) => self.tally.tell_refusal(self.rt, frame, fault.into()),
        }
    }
}

// The message of a frame that would be taken.
fn take(frame: &[u8], options: &Options) -> Result<Message, LineFault> {
    let message = read_message(frame)?;
    message.arrive_at(options.member, options.circle)?;
    Ok(message)
}
