//! Walks of tables as its input tells, and what each of them gives. tools/walk_cases.py writes the input and works out what is to be
//! printed; a line of the input is as `Line` says.
#![tactic(auto)]

mod lines;
mod shown;
mod steps;

ghost use Rattle.std.specs.Prelude.{◌≡◌, length};
ghost use Rattle.journal_core.specs.Translating.{IsQuiet};

use journal_core::Journal;
use lines::{Line, read_line};
use real_store::{MOST_BYTES, Store};
use shown::{show_ask, show_partition};
use std::io::{self, BufRead, BufReader};
use steps::journal_of_three_steps;

/// Does what a line says.
fn follow(
    rt: &(impl Print + AllocGlobal),
    journal: &Journal,
    store: &mut Store,
    text: &str,
) -> io::Result<()>
    requires moment { length journal.now.rows.steps ≡ 3 }
    requires quiet { IsQuiet journal.now.rows }
{
    match read_line(text) {
        None => println!(rt; "{text}"),
        Some(Line::Memory(size)) => {
            *store = Store::open(rt.alloc(), size.min(MOST_BYTES))?;
            Ok(())
        }
        Some(Line::Word(at, value)) => {
            let _ = store.place(at, &value.to_be_bytes());
            Ok(())
        }
        Some(Line::Partition(ptcr, lpid, gra)) => show_partition(
            rt, journal, store, ptcr, lpid, gra,
        ),
        Some(Line::Asked(ask)) => show_ask(rt, journal, store, &ask),
    }
}

fn main(rt: HostRuntime) -> io::Result<()> {
    let journal = journal_of_three_steps(rt.alloc())?;
    let mut store = Store::open(rt.alloc(), 0)?;
    for line in BufReader::new(rt.alloc(), rt.reader())?.lines(rt.alloc()) {
        follow(&rt, &journal, &mut store, line?.as_str())?;
    }
    Ok(())
}
