// bench tree|whole|text FILE ROUNDS [time]: answers all tables of a file, one behind the other, so many times over: by the tree alone, by the whole call, or with the text that is printed.
// It prints how many have a tree, how many have no order and how many are refused; with the word time, nanoseconds for each table that is answered too.
#![tactic(auto)]

ghost use Rattle.std.specs.Prelude.{length};
ghost use Rattle.std.specs.Iterator.{at_most};

use answers::printed::Ending;
use answers::seriating::seriate_text;
use anyhow::bail;
use grounds::notebook::Notebook;
use grounds::outcome::Outcome;
use grounds::whole::seriate;
use seriation::building::build;
use seriation::built::Built;
use std::alloc::{AllocError, Global};
use std::time::Instant;
use std::{env, fmt, fs};
use trees::rows::Rows;

// What a table gets: three outcomes that are only counted.
#[derive(Clone, Copy, Drop)]
enum Answer {
    Tree,
    NoOrder,
    Refused,
}

// How many tables there were with a tree, without an order, and refused.
#[derive(Clone, Copy, Default, Drop)]
struct Tally {
    trees: u64,
    none: u64,
    refused: u64,
}

impl Tally {
    // One answer more.
    fn count(&mut self, answer: Answer) {
        let number = match answer {
            Answer::Tree => &mut self.trees,
            Answer::NoOrder => &mut self.none,
            Answer::Refused => &mut self.refused,
        };
        *number = number.saturating_add(1);
    }
}

impl fmt::Display for Tally {
    fn fmt<W: fmt::Write>(&self, f: &mut fmt::Formatter<W>) -> fmt::Result {
        let Tally {
            trees,
            none,
            refused,
        } = *self;
        write!(f, "trees {trees} none {none} refused {refused}")
    }
}

// The tables of a file, one behind the other, up to one that is cut short.
#[derive(Clone, Copy, Drop)]
struct Tables<'a>(&'a [u8]);

impl<'a> Iterator for Tables<'a> {
    type Item = &'a [u8];

    ghost remaining = { λ s. at_most (length s.0.now) };

    fn next(&mut self) -> Option<&'a [u8]> {
        let [_, kinds, ..] = self.0 else {
            return None;
        };
        let (table, rest) = self.0.split_at_checked(2 + 8 * *kinds as usize)?;
        self.0 = rest;
        Some(table)
    }
}

// Builds the tree of one table, in memory of this frame.
fn build_one(file: &[u8]) -> Answer {
    let mut rows = Rows {
        parents: &mut [0; 127],
        sorts: &mut [0; 127],
        places: &mut [0; 127],
        sets: &mut [0; 127],
    };
    match build(file, &mut rows, &mut [0; 128]) {
        Ok(Built::Tree { .. }) => Answer::Tree,
        Ok(Built::NoOrder { .. }) => Answer::NoOrder,
        Err(_) => Answer::Refused,
    }
}

// The whole call on one table, in memory of this frame.
fn seriate_one(file: &[u8]) -> Answer {
    let mut rows = Rows {
        parents: &mut [0; 127],
        sorts: &mut [0; 127],
        places: &mut [0; 127],
        sets: &mut [0; 127],
    };
    let mut notes = Notebook {
        depths: &mut [0; 4096],
        parents: &mut [0; 4096],
        queue: &mut [0; 4096],
    };
    match seriate(file, &mut rows, &mut [0; 128], &mut notes, &mut [0; 8064]) {
        Ok(Outcome::Tree { .. }) => Answer::Tree,
        Ok(Outcome::Ground { .. }) => Answer::NoOrder,
        Err(_) => Answer::Refused,
    }
}

// The text for one table.
fn text_one(heap: Global, file: &[u8]) -> Result<Answer, AllocError> {
    let printed = seriate_text(heap, file)?;
    match printed.ending {
        Ending::Answered if printed.text.as_str().starts_with("no order") => Ok(Answer::NoOrder),
        Ending::Answered => Ok(Answer::Tree),
        Ending::TurnedAway => Ok(Answer::Refused),
    }
}

// Answers all tables, and counts the answers.
fn answer_all<F: Fn(&[u8]) -> Result<Answer, AllocError>>(
    tables: Tables,
    answer: F,
    tally: &mut Tally,
) -> Result<(), AllocError>
    requires { F.IsAlwaysCallable answer }
{
    for table in tables {
        tally.count(answer(table)?);
    }
    Ok(())
}

// Answers all tables, so many times over.
fn answer_rounds<F: Fn(&[u8]) -> Result<Answer, AllocError>>(
    tables: Tables,
    rounds: u32,
    answer: F,
) -> Result<Tally, AllocError>
    requires { F.IsAlwaysCallable answer }
{
    let mut tally = Tally::default();
    for _ in 0..rounds {
        answer_all(tables, &answer, &mut tally)?;
    }
    Ok(tally)
}

fn main(rt: HostRuntime) -> anyhow::Result<()> {
    let mut args = env::args(&rt)?.skip(1);
    let (Some(word), Some(path), Some(rounds)) = (args.next(), args.next(), args.next()) else {
        bail!("call it as: bench tree|whole|text FILE ROUNDS [time]");
    };
    let rounds = rounds.as_str().parse()?;
    let timed = args.next().is_some();
    let file = fs::read(&rt, path.as_str())?;
    let tables = Tables(file.as_slice());
    let start = Instant::now(&rt)?;
    // any other word is for the tree alone
    let tally = match word.as_str() {
        "whole" => answer_rounds(tables, rounds, |table| Ok(seriate_one(table)))?,
        "text" => answer_rounds(tables, rounds, |table| text_one(rt.alloc(), table))?,
        _ => answer_rounds(tables, rounds, |table| Ok(build_one(table)))?,
    };
    let elapsed = start.elapsed(&rt)?.as_nanos();
    println!(rt; "{tally}")?;
    if timed {
        let answered = tally.trees.saturating_add(tally.none).max(1);
        println!(rt; "nanoseconds for each {}", elapsed / answered as u128)?;
    }
    Ok(())
}
