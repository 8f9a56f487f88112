// verify TABLE order FILE, verify TABLE ring FILE: checks an order of the graves, or a ring of clashing pairs, from elsewhere against a table of finds.
#![tactic(auto)]

use answers::printed::Ending;
use answers::verifying::{order_text, ring_text};
use std::str::FromStr;
use std::{env, fs, io};

// What is to be checked.
#[derive(Clone, Copy, Drop)]
enum Question {
    Order,
    Ring,
}

// A word that asks for neither.
#[derive(Drop)]
struct UnknownWord;

impl FromStr for Question {
    type Err = UnknownWord;

    fn from_str(word: &str) -> Result<Question, UnknownWord> {
        match word {
            "order" => Ok(Question::Order),
            "ring" => Ok(Question::Ring),
            _ => Err(UnknownWord),
        }
    }
}

// The words of a call.
#[derive(Drop)]
struct Call {
    table: String,
    question: Question,
    file: String,
}

// The words of the call, if they are as they should be.
fn words(rt: &HostRuntime) -> io::Result<Option<Call>> {
    let mut args = env::args(rt)?.skip(1);
    let (Some(table), Some(word), Some(file), None) = (
        args.next(),
        args.next(),
        args.next(),
        args.next(),
    ) else {
        return Ok(None);
    };
    let Ok(question) = word.as_str().parse() else {
        return Ok(None);
    };
    Ok(Some(Call {
        table,
        question,
        file,
    }))
}

// The bytes of a file; where it cannot be read, a sentence on stderr.
fn bytes_of(rt: &HostRuntime, path: &str) -> io::Result<Option<Vec<u8>>> {
    match fs::read(rt, path) {
        Ok(bytes) => Ok(Some(bytes)),
        Err(e) => {
            eprintln!(rt; "verify: {path} cannot be read: {e}")?;
            Ok(None)
        }
    }
}

fn main(rt: HostRuntime) -> anyhow::Result<Ending> {
    let Some(call) = words(&rt)? else {
        eprintln!(rt;
            "verify: wrong words. Call it as: verify TABLE order FILE, or: verify TABLE ring FILE"
        )?;
        return Ok(Ending::TurnedAway);
    };
    let Some(table) = bytes_of(&rt, call.table.as_str())? else {
        return Ok(Ending::TurnedAway);
    };
    let Some(file) = bytes_of(&rt, call.file.as_str())? else {
        return Ok(Ending::TurnedAway);
    };
    // Two calls with two promises: to choose a closure first would be no plainer.
    let printed = match call.question {
        Question::Order => order_text(rt.alloc(), table.as_slice(), file.as_slice())?,
        Question::Ring => ring_text(rt.alloc(), table.as_slice(), file.as_slice())?,
    };
    rt.print(printed.text)?;
    Ok(printed.ending)
}
