// The words of the call.
use frame::arrival::Circle;
use frame::kinds::Osn;
use std::env::Args;
use std::{env, io};

#[derive(Drop)]
pub struct Options {
    pub help: bool,
    // each file is one frame
    pub whole: bool,
    pub member: u16,
    pub circle: Circle,
    pub files: Vec<String>,
}

// The options of this call, or nothing where a word is not understood.
pub fn read_options(rt: &HostRuntime) -> io::Result<Option<Options>> {
    let mut options = Options {
        help: false,
        whole: false,
        member: 7999,
        circle: Circle {
            first: Osn(600001),
            last: Osn(999999),
        },
        files: Vec::new(rt.alloc()),
    };
    let mut words = env::args(rt)?;
    let _program = words.next();
    // an option takes the word behind it, so the words are not gone through by `for`; a `while let` would owe a proof that words end
    for _ in 0..u64::MAX {
        let Some(word) = words.next() else {
            break;
        };
        if !word.as_str().starts_with('-') {
            options.files.push(word)?;
        } else if set_option(&mut options, word.as_str(), &mut words).is_none() {
            return Ok(None);
        }
    }
    Ok(Some(options))
}

// Sets what an option says; nothing where it is none, or the word behind it is not understood.
fn set_option(options: &mut Options, option: &str, words: &mut Args) -> Option<()> {
    match option {
        "--help" | "-h" => options.help = true,
        "--whole" => options.whole = true,
        "--member" => options.member = read_member(words.next()?.as_str())?,
        "--circle" => options.circle = read_circle(words.next()?.as_str())?,
        _ => return None,
    }
    Some(())
}

// A member has a number of at most four digits.
fn read_member(text: &str) -> Option<u16> {
    text.parse::<u16>().ok().filter(|member| *member <= 9999)
}

// FIRST-LAST, within 1 to 999999.
fn read_circle(text: &str) -> Option<Circle> {
    let (first, last) = text.split_once('-')?;
    let first = first.parse::<u32>().ok()?;
    let last = last.parse::<u32>().ok()?;
    (1 <= first && first <= last && last <= 999999).then_some(Circle {
        first: Osn(first),
        last: Osn(last),
    })
}
