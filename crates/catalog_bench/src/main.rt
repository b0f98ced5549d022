//! Times look-ups in a catalog.
//!
//! From standard input come lines of a kind and a name: those to be added, an empty line, and those to be looked up;
//! without an empty line nothing is done and nothing printed. What is printed are the microseconds of adding them
//! all, of `find` and of `kinds_of` for each that is looked up, each the best of five, and how many were found.
#![tactic(auto)]

use anyhow::{Result, anyhow};
use attr_catalog::Catalog;
use doc_values::Kind;
use std::io;
use std::time::Instant;

const ROUNDS: u32 = 5;

// A name with a kind.
#[derive(Clone, Copy)]
struct Pair<'a> {
    name: &'a str,
    kind: Kind,
}

fn main(rt: HostRuntime) -> Result<()> {
    let text = io::read_to_string(rt.alloc(), rt.stdin())?;
    let Some((added, asked)) = text.as_str().split_once("\n\n") else {
        return Ok(());
    };
    let added = read_pairs(&rt, added)?;
    let asked = read_pairs(&rt, asked)?;
    let catalog = filled(&rt, &added)?;
    let mut adding = u128::MAX;
    let mut finding = u128::MAX;
    let mut naming = u128::MAX;
    let mut found = 0;
    for _ in 0..ROUNDS {
        adding = adding.min(time_add(&rt, &added)?);
        let start = Instant::now(&rt)?;
        found = count_found(&catalog, &asked);
        finding = finding.min(start.elapsed(&rt)?.as_micros());
        let start = Instant::now(&rt)?;
        let named = count_named(&catalog, &asked);
        naming = naming.min(start.elapsed(&rt)?.as_micros());
        if named != found {
            return Err(anyhow!("find and kinds_of differ"));
        }
    }
    println!(rt; "{adding} {finding} {naming} {found}")?;
    Ok(())
}

// The pairs of a text, one a line.
fn read_pairs<'a>(rt: &HostRuntime, text: &'a str) -> Result<Vec<Pair<'a>>> {
    let mut pairs = Vec::new(rt.alloc());
    for line in text.lines() {
        let pair = read_pair(line).ok_or_else(|| anyhow!("a line has no kind or no name"))?;
        pairs.push(pair)?;
    }
    Ok(pairs)
}

fn read_pair(line: &str) -> Option<Pair<'_>> {
    let (kind, name) = line.split_once(' ')?;
    let kind = match kind {
        "bool" => Kind::Bool,
        "int" => Kind::Int,
        "text" => Kind::Text,
        "array" => Kind::Array,
        "object" => Kind::Object,
        _ => return None,
    };
    Some(Pair { name, kind })
}

// A catalog of the pairs.
fn filled(rt: &HostRuntime, pairs: &[Pair]) -> Result<Catalog> {
    let mut catalog = Catalog::new(rt.alloc());
    for pair in pairs {
        if catalog.add(pair.name, pair.kind).is_err() {
            return Err(anyhow!("the catalog is full"));
        }
    }
    Ok(catalog)
}

// The microseconds in which a catalog is filled and let go.
fn time_add(rt: &HostRuntime, pairs: &[Pair]) -> Result<u128> {
    let start = Instant::now(rt)?;
    filled(rt, pairs)?;
    Ok(start.elapsed(rt)?.as_micros())
}

// How many of the pairs are attributes, by their numbers.
fn count_found(catalog: &Catalog, pairs: &[Pair]) -> usize {
    pairs
        .iter()
        .filter(|pair| catalog.find(pair.name, pair.kind).is_some())
        .count()
}

// How many of the pairs are attributes, by the kinds of their names.
fn count_named(catalog: &Catalog, pairs: &[Pair]) -> usize {
    pairs
        .iter()
        .filter(|pair| catalog.kinds_of(pair.name).of(pair.kind).is_some())
        .count()
}
