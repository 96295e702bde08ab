//! For each file that is named: how many units and entries it has, or its first fault. Behind the word `--entries` also each unit, and each
//! entry: where it begins, its tag, the top in which it stands and where there, and its attributes with what they say, a line for each.
//!
//! Behind `--common COMMON` files are read beside that finished common file, as files that are to import from it; behind `--back` as files
//! that may import from it, or without it by themselves.
//!
//! It shows what the readers answer, beside a model that was written independently.
#![tactic(auto)]

mod entries;
mod tops;
mod values;
mod walk;

ghost use Rattle.std.specs.Prelude.{◌≡◌, ◌<◌, IfOk, length, map};

use anyhow::Context;
use dwz_graph::Graph;
use dwz_model::{GraphErr, Refusal};
use entries::{show_entries, show_units};
use std::alloc::Global;
use std::rt::{Env, Files};
use std::{env, fs};
use walk::{Counts, counts_of};

// A line for a file that was read, and, if asked for, one for each of its units and entries; or its first fault.
fn report(
    rt: &impl Print,
    alloc: Global,
    name: &str,
    with_entries: bool,
    answer: Result<Graph<'_>, GraphErr>,
) -> anyhow::Result<()>
    requires { IfOk answer (λ graph. 0 < length graph.given) }
{
    match answer {
        Ok(graph) => {
            let Counts { units, entries } = counts_of(&graph);
            println!(rt; "{name}: {units} units, {entries} entries")?;
            if with_entries {
                show_units(rt, &graph)?;
                show_entries(rt, alloc, &graph)?;
            }
        }
        Err(error) => show_error(rt, name, error)?,
    }
    Ok(())
}

// The same of a file that may have been written.
fn report_back(
    rt: &impl Print,
    name: &str,
    answer: Result<Graph<'_>, GraphErr>,
) -> anyhow::Result<()> {
    match answer {
        Ok(graph) => {
            for file in graph.back() {
                let units = &file.units;
                println!(rt;
                    "{name}: {} units, {} entries",
                    units.len(),
                    units.entries()
                )?;
            }
        }
        Err(error) => show_error(rt, name, error)?,
    }
    Ok(())
}

// Why a file wasn't read, or the common file before it, which has the number 1.
fn show_error(rt: &impl Print, name: &str, error: GraphErr) -> anyhow::Result<()> {
    match error {
        GraphErr::Refused(
            Refusal {
                file,
                section,
                at,
                reason,
            },
        ) => {
            print!(rt; "{name}: ")?;
            if file > 0 {
                print!(rt; "common file, ")?;
            }
            println!(rt; "section {section} at {at}: {reason:?}")?;
        }
        GraphErr::NoMemory => println!(rt; "{name}: out of memory")?,
    }
    Ok(())
}

// How files are read.
#[derive(Drop)]
struct How {
    with_entries: bool,
    back: bool,
    common: Option<Vec<u8>>,
}

// Reads the file of that name, and shows what comes of it.
fn show<R: Files + Print + AllocGlobal>(
    rt: &R,
    alloc: Global,
    name: &str,
    how: &How,
) -> anyhow::Result<()> {
    let bytes = read(rt, name)?;
    let files = vec![in alloc; bytes]?;
    let common = how.common.as_ref().map(|bytes| bytes.as_slice());
    if how.back {
        return report_back(rt, name, Graph::read_back(alloc, files.as_slice(), common));
    }
    let answer = match common {
        None => Graph::read(alloc, files.as_slice()),
        Some(common) => Graph::read_sup(alloc, files.as_slice(), common),
    };
    report(rt, alloc, name, how.with_entries, answer)
}

// The bytes of the file of that name.
fn read<R: Files + AllocGlobal>(rt: &R, name: &str) -> anyhow::Result<Vec<u8>> {
    Ok(fs::read(rt, name).context(format_args!("reading {name}"))?)
}

fn run<R: Env + Files + Print + AllocGlobal>(rt: &R, alloc: Global) -> anyhow::Result<()> {
    let mut how = How {
        with_entries: false,
        back: false,
        common: None,
    };
    let mut names_common = false;
    for name in env::args(rt)?.skip(1) {
        if names_common {
            how.common = Some(read(rt, name.as_str())?);
            names_common = false;
            continue;
        }
        match name.as_str() {
            "--entries" => how.with_entries = true,
            "--back" => how.back = true,
            "--common" => names_common = true,
            name => show(rt, alloc, name, &how)?,
        }
    }
    Ok(())
}

fn main(rt: HostRuntime) -> anyhow::Result<()> {
    run(&rt, rt.alloc())
}
