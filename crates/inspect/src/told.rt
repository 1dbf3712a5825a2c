// What is printed of a frame, and of all of them.
use frame::arrival::Message;
use notation::refusals::{Layer, Refusal};
use std::io;

// How many frames were read, and how many of them were refused, by number.
#[derive(Drop)]
pub struct Tally {
    read: u64,
    taken: u64,
    // by number; none needs memory when it is first met
    refused: [u64; 256],
}

impl Tally {
    pub fn new() -> Tally {
        Tally {
            read: 0,
            taken: 0,
            refused: [0; 256],
        }
    }

    // Counts one frame more, and gives its place among all.
    fn next(&mut self) -> u64 {
        self.read = self.read.saturating_add(1);
        self.read
    }

    // A frame that would be taken.
    pub fn tell_message(&mut self, rt: &HostRuntime, message: &Message) -> io::Result<()> {
        let place = self.next();
        self.taken = self.taken.saturating_add(1);
        let header = message.header;
        let number = header.number;
        let code = header.code;
        let kind = message.kind;
        let mark = header.mark;
        print!(rt; "frame {place}: number {number}, type {code:03} ({kind}), {mark}, ")?;
        if let Some(answer) = message.answer {
            print!(rt; "trade {} {}, ", answer.isn.0, answer.verdict)?;
        }
        let length = header.length;
        println!(rt; "text of {length} bytes")
    }

    // A frame that would be turned away, with the byte where the refusal stands.
    pub fn tell_refusal(
        &mut self,
        rt: &HostRuntime,
        frame: &[u8],
        refusal: Refusal,
    ) -> io::Result<()> {
        let place = self.next();
        let count = &mut self.refused[usize::from(refusal.number)];
        *count = count.saturating_add(1);
        print!(rt; "frame {place}: refused: {refusal}")?;
        match refusal.layer {
            Layer::Line => println!(rt; ""),
            _ => show_byte(rt, frame.get(refusal.offset).copied()),
        }
    }

    // The last line: how many frames were read, taken and refused, by number.
    pub fn tell(&self, rt: &HostRuntime) -> io::Result<()> {
        let read = self.read;
        let taken = self.taken;
        let refused = read.saturating_sub(taken);
        print!(rt; "{read} frames read, {taken} taken, {refused} refused")?;
        let met = self
            .refused
            .iter()
            .enumerate()
            .filter(|(_, count)| **count > 0);
        for (i, (number, count)) in met.enumerate() {
            let sign = if i == 0 { ": " } else { ", " };
            print!(rt; "{sign}{number} x {count}")?;
        }
        println!(rt; "")
    }
}

fn show_byte(rt: &HostRuntime, byte: Option<u8>) -> io::Result<()> {
    match byte {
        None => println!(rt; ", where the frame ends"),
        Some(b) if b.is_ascii_graphic() => println!(rt; ", which is {}", b as char),
        Some(b) => println!(rt; ", which is hexadecimal {b:02x}"),
    }
}
