//! Deep scripts, and whether each is accepted. Standard input has a row for each, of nine fields with a `|` between
//! them: the limit on height, what stands before, what opens a level and how often, what stands inside, what goes on
//! with the level and how often, what closes it and how often; then ` => ` and the answer that is due. Other lines
//! are passed over. A row that is answered otherwise is printed, and at the end how many rows there were and how many
//! of them differed.
#![tactic(auto)]

use anyhow::{Result, bail};
use jl_lex::{LexRefusal, lex};
use jl_parse::{ParseRefusal, parse};
use jl_text::{Utf8Fault, from_utf8};
use std::alloc::Global;

fn main(rt: HostRuntime) -> Result<()> {
    let alloc = rt.alloc();
    let mut rows = 0u32;
    let mut differ = 0u32;
    for line in rt.lines(alloc) {
        let line = line?;
        if let Some((row, wanted)) = line.split_once(" => ") {
            rows = rows.wrapping_add(1);
            if is_accepted(alloc, row)? != is_due(wanted)? {
                differ = differ.wrapping_add(1);
                println!(rt; "{row} is answered otherwise, where {wanted} is due")?;
            }
        }
    }
    println!(rt; "{rows} rows, of which {differ} are answered otherwise")?;
    Ok(())
}

fn is_due(wanted: &str) -> Result<bool> {
    match wanted {
        "accepted" => Ok(true),
        "refused" => Ok(false),
        _ => bail!("neither accepted nor refused"),
    }
}

fn is_accepted(alloc: Global, row: &str) -> Result<bool> {
    let fields: Vec<&str> = row.split('|').collect(alloc)?;
    let [
        limit,
        before,
        open,
        opens,
        inside,
        link,
        links,
        close,
        closes,
    ] = fields.as_slice()
    else {
        bail!("not nine fields");
    };
    let mut level = String::new(alloc);
    push_times(&mut level, link, links.parse::<u32>()?)?;
    level.push_str(close)?;
    let mut source = String::new(alloc);
    source.push_str(before)?;
    push_times(&mut source, open, opens.parse::<u32>()?)?;
    source.push_str(inside)?;
    push_times(&mut source, level.as_str(), closes.parse::<u32>()?)?;
    is_program(alloc, source.as_bytes(), limit.parse::<u32>()?)
}

/// Adds the piece that often at the end.
fn push_times(text: &mut String, piece: &str, times: u32) -> Result<()> {
    for _time in 0..times {
        text.push_str(piece)?;
    }
    Ok(())
}

/// Whether the source is a program within the limit.
fn is_program(alloc: Global, bytes: &[u8], limit: u32) -> Result<bool> {
    let units = match from_utf8(alloc, bytes) {
        Ok(units) => units,
        Err(Utf8Fault::NotUtf8 { at }) => bail!("not UTF-8 at {at}"),
        Err(Utf8Fault::NoMemory) => bail!("no memory"),
    };
    if units.len() >= 4_294_967_296 {
        bail!("too long");
    }
    let tokens = match lex(alloc, units.as_slice()) {
        Ok(tokens) => tokens,
        Err(LexRefusal::BadInput { at, kind }) => bail!("{kind:?} at {at}"),
        Err(LexRefusal::NoMemory) => bail!("no memory"),
    };
    if tokens.len() >= 4_294_967_296 {
        bail!("too many tokens");
    }
    match parse(alloc, tokens.items(), limit) {
        Ok(_program) => Ok(true),
        Err(ParseRefusal::Unreadable { .. }) => Ok(false),
        Err(ParseRefusal::NoMemory) => bail!("no memory"),
    }
}
