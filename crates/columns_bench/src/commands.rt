ghost use Rattle.columns_bench.specs.Typed.{AreTyped};

use crate::random::compare;
use crate::reading::{masked, shown, walked};
use crate::timing::{fill, time, touch};
use crate::typed::{clear, put};
use anyhow::{Result, anyhow};
use doc_values::{AttrId, CompareOp};
use phys_columns::{Columns, CompareInt, ValueRef};

/// Runs the commands of a text, and prints an answer for each.
pub(crate) fn run_all(rt: &HostRuntime, columns: &mut Columns, text: &str) -> Result<()>
    requires { AreTyped columns.old.cells }
{
    for line in text.lines() {
        let answer = run(rt, columns, line)?;
        println!(rt; "{answer}")?;
    }
    Ok(())
}

fn run(rt: &HostRuntime, columns: &mut Columns, line: &str) -> Result<String>
    requires { AreTyped columns.old.cells }
    ensures { AreTyped columns.new.cells }
{
    let mut words = line.split(' ');
    let name = words.next().unwrap_or("");
    let first = words.next().unwrap_or("");
    let second = words.next().unwrap_or("");
    let third = words.next().unwrap_or("");
    let fourth = words.next().unwrap_or("");
    match name {
        "put" => {
            put(
                columns,
                rt.alloc(),
                first.parse()?,
                second.parse()?,
                third.parse()?,
            )?;
            Ok("ok".to_string(rt.alloc())?)
        }
        "clear" => {
            let taken = clear(columns, first.parse()?, second.parse()?);
            shown(rt.alloc(), taken.as_ref().map(ValueRef::of))
        }
        "random" => compare(rt.alloc(), first.parse()?, second.parse()?),
        "fill" => fill(rt.alloc(), first.parse()?),
        "touch" => touch(rt.alloc(), first.parse()?),
        "time" => time(rt, first.parse()?),
        _ => read(rt, columns, name, first.parse()?, [second, third, fourth]),
    }
}

// The answer of a command that changes nothing.
fn read(
    rt: &HostRuntime,
    columns: &Columns,
    name: &str,
    id: u32,
    words: [&str; 3],
) -> Result<String> {
    let alloc = rt.alloc();
    match name {
        "has" => Ok(columns.has(AttrId(id), words[0].parse()?).to_string(alloc)?),
        "cell" => shown(alloc, columns.cell_ref(AttrId(id), words[0].parse()?)),
        "copy" => {
            let value = columns.cell(AttrId(id), words[0].parse()?)?;
            shown(alloc, value.as_ref().map(ValueRef::of))
        }
        "walk" => walked(alloc, columns, id, words[0].parse()?),
        "filter" => {
            let op = op_by(words[1])?;
            let with = words[2].parse()?;
            let mask = columns.filter_page(AttrId(id), words[0].parse()?, CompareInt { op, with });
            masked(alloc, &mask)
        }
        _ => Err(anyhow!("no such command")),
    }
}

fn op_by(sign: &str) -> Result<CompareOp> {
    match sign {
        "=" => Ok(CompareOp::Eq),
        "<>" => Ok(CompareOp::Ne),
        "<" => Ok(CompareOp::Lt),
        "<=" => Ok(CompareOp::Le),
        ">" => Ok(CompareOp::Gt),
        ">=" => Ok(CompareOp::Ge),
        _ => Err(anyhow!("no such comparison")),
    }
}
