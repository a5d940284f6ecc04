//! What the words of a command line ask for, and why they are refused.

use std::alloc::{AllocError, Global};
use vf_base::{Memory, Text};
use vf_jobs::Order;
use vf_words::{Asked, Command, Mode, WordFault, read_words};

/// The words of a line, with a blank between them; `_` is the empty word.
fn words_of(alloc: Global, line: &str) -> Result<Vec<String>, Memory> {
    let mut words = Vec::new(alloc);
    if line.is_empty() {
        return Ok(words);
    }
    for word in line.split(' ') {
        let word = if word == "_" { "" } else { word };
        words.push(String::from_str(alloc, word)?)?;
    }
    Ok(words)
}

fn mode_word(mode: Mode) -> &'static str {
    match mode {
        Mode::Run => "run",
        Mode::Check => "check",
        Mode::Solo => "solo",
        Mode::Make => "make",
    }
}

fn order_word(order: Order) -> &'static str {
    match order {
        Order::Oldest => "oldest",
        Order::Deepest => "deepest",
        Order::Widest => "widest",
    }
}

/// The bytes of a text.
fn shown(alloc: Global, text: &Text) -> Result<String, AllocError> {
    String::from_utf8_lossy(alloc, text.bytes())
}

/// A name in quotes, or `-` where there is none.
fn name_text(alloc: Global, name: &Option<Text>) -> Result<String, AllocError> {
    match name {
        Some(name) => {
            let name = shown(alloc, name)?;
            format!(in alloc; "'{name}'")
        }
        None => format!(in alloc; "-"),
    }
}

fn files_text(alloc: Global, files: &Option<(Text, Text)>) -> Result<String, AllocError> {
    match files {
        Some((design, plan)) => {
            let design = shown(alloc, design)?;
            let plan = shown(alloc, plan)?;
            format!(in alloc; " {design} {plan}")
        }
        None => Ok(String::new(alloc)),
    }
}

fn command_text(alloc: Global, command: &Command) -> Result<String, AllocError> {
    let mut text = format!(in alloc;
        "{} {} {} {} {}",
        mode_word(command.mode),
        command.workers,
        command.pages,
        command.limits.turns,
        command.limits.output
    )?;
    let order = order_word(command.order);
    write!(text, " {} {order} {}", command.slots, command.journal)?;
    let top = name_text(alloc, &command.top)?;
    let test = name_text(alloc, &command.test)?;
    let files = files_text(alloc, &command.files)?;
    write!(text, " {top} {test} {}{files}", command.number)?;
    Ok(text)
}

/// What the words of a line ask for, or their fault.
pub fn told(alloc: Global, line: &str) -> Result<String, Memory> {
    let words = words_of(alloc, line)?;
    let text = match read_words(alloc, &words) {
        Ok(Asked::Work(command)) => command_text(alloc, &command),
        Ok(Asked::Help) => format!(in alloc; "help"),
        Ok(Asked::Version) => format!(in alloc; "version"),
        Err(WordFault::Refused) => format!(in alloc; "1 Refused"),
        Err(WordFault::Range(option)) => {
            let option = shown(alloc, &option)?;
            format!(in alloc; "2 Range {option}")
        }
        Err(WordFault::Files) => format!(in alloc; "3 Files"),
        Err(WordFault::Test) => format!(in alloc; "4 Test"),
        Err(WordFault::Memory) => format!(in alloc; "5 Memory"),
    };
    Ok(text?)
}
