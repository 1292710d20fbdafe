// Lists values as a message does, keeps the line in a record, and shows it on the sheets that are chosen.
#![tactic(auto)]

mod failure;
mod files;
mod shown;
mod statement;

use failure::Failure;
use files::{read_record, save};
use journal::listing::{listing, quoted_values};
use journal::record::{append, holds, seal_of, text_of};
use journal::values::pack;
use shown::{Choice, show_line};
use sink::Sink;
use sink::block_file::BlockFile;
use statement::Statement;
use std::io::Write;
use std::process::ExitCode;
use std::{env, fs};
use util::packed::count_items;

const RECORD: &str = "record.bin";

// Values that show what is quoted: a blank, quotes, a backslash, and no byte at all.
const EXAMPLES: [&str; 5] = ["par", "zero coupon", "\"dirty\" price", "act\\act isda", ""];

fn open(path: &str, bytes: Vec<u8>) -> Result<BlockFile, Failure<'_>> {
    BlockFile::open(bytes).map_err(|back| Failure::Record {
        path,
        refusal: back.refusal,
    })
}

// Puts the line into the record on disk, reads it back, and states how.
fn record_line(rt: &HostRuntime, list: &[u8], line: &[u8]) -> Result<(), Failure<'static>> {
    let heap = rt.alloc();
    let mut file = open(RECORD, read_record(rt, RECORD)?)?;
    let touched = append(&mut file, line).map_err(|fault| Failure::Record {
        path: RECORD,
        refusal: fault.into(),
    })?;
    save(rt, RECORD, file.bytes())?;
    let again = open(RECORD, fs::read(rt, RECORD)?)?;
    let text = text_of(heap, &file)?;
    if !holds(heap, &again, &text)? {
        return Err(Failure::Lost);
    }
    let quoted = quoted_values(heap, list)?;
    let statement = Statement {
        values: count_items(list),
        quoted: quoted.as_slice(),
        put: line.len(),
        touched,
        held: again.len(),
        left: again.bytes_left(),
        blocks: again.blocks(),
        seal: seal_of(&again, touched.to.saturating_sub(1)),
    };
    rt.println(statement)?;
    Ok(())
}

// Lists the values, shows the line on the sheets chosen, and records it.
fn list_values(
    rt: &HostRuntime,
    values: &[String],
    choices: &[Choice],
) -> Result<(), Failure<'static>> {
    let heap = rt.alloc();
    let list = pack(heap, values)?;
    let mut line = listing(heap, &list)?;
    line.push(b'\n')?;
    rt.stdout().write_all(&line)?;
    show_line(rt, &list, choices)?;
    record_line(rt, &list, &line)
}

// Writes what a record holds.
fn show<'a>(rt: &HostRuntime, path: &'a str) -> Result<(), Failure<'a>> {
    if !fs::exists(rt, path)? {
        return Err(Failure::NoFile(path));
    }
    let file = open(path, fs::read(rt, path)?)?;
    let text = text_of(rt.alloc(), &file)?;
    rt.stdout().write_all(&text)?;
    Ok(())
}

// Takes the sheets that the words begin with, each behind `--sheet`, and answers the words behind them.
fn choose<'a>(words: &'a [String], choices: &mut Vec<Choice>) -> Result<&'a [String], Failure<'a>> {
    let mut words = words;
    while let [flag, name, rest @ ..] = words {
        if flag.as_str() != "--sheet" {
            break;
        }
        let name = name.as_str();
        choices.push(Choice::try_from(name)?)?;
        words = rest;
    }
    Ok(words)
}

// Lists the words, or the examples where there is none.
fn list_words<'a>(
    rt: &HostRuntime,
    words: &'a [String],
    choices: &[Choice],
) -> Result<(), Failure<'a>> {
    match words {
        [] => {
            let heap = rt.alloc();
            let examples: Vec<String> = EXAMPLES
                .iter()
                .map(|value| String::from_str(heap, value))
                .try_collect(heap)?;
            list_values(rt, &examples, choices)
        }
        [word, values @ ..] if word.as_str() == "--" => list_values(rt, values, choices),
        values => list_values(rt, values, choices),
    }
}

// Does what the words ask for.
fn run<'a>(rt: &HostRuntime, words: &'a [String]) -> Result<(), Failure<'a>> {
    match words {
        [word, path] if word.as_str() == "open" => show(rt, path.as_str()),
        words => {
            let mut choices = Vec::new(rt.alloc());
            let rest = choose(words, &mut choices)?;
            list_words(rt, rest, &choices)
        }
    }
}

// The words behind the program's name.
fn words(rt: &HostRuntime) -> Result<Vec<String>, Failure<'static>> {
    Ok(env::args(rt)?.skip(1).collect(rt.alloc())?)
}

// Tells a failure on standard error.
fn told(rt: &HostRuntime, done: Result<(), Failure<'_>>) -> ExitCode {
    match done {
        Ok(()) => ExitCode::SUCCESS,
        Err(why) => {
            let _ = eprintln!(rt; "report: {why}");
            ExitCode::FAILURE
        }
    }
}

fn main(rt: HostRuntime) -> ExitCode {
    // Both are told here: a failure may name one of the words, which do not outlive this.
    match words(&rt) {
        Ok(words) => told(&rt, run(&rt, &words)),
        Err(why) => told(&rt, Err(why)),
    }
}
