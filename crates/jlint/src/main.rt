//! The program jlint: standard input is the script, standard output the answer, and the exit status how it ended.
#![tactic(auto)]

mod checkers;

use crate::checkers::{type_checkers, use_checkers};
use jl_analysis::{Analysis, Crowd};
use jl_app::{Status, jlint};
use jl_port::{InSource, OutSink, Same};
use std::env;
use std::hash::RandomState;
use std::io::{self, ErrorKind};
use std::process::ExitCode;

fn main(rt: HostRuntime) -> ExitCode {
    match run(&rt) {
        Ok(status) => ExitCode::from(status.code()),
        Err(_) => ExitCode::from(Status::NoMemory.code()),
    }
}

/// Runs the command that the program's words name, with a checker of each rule. An error is that no memory was left, or
/// that the system had no random seed for the tables of names, before anything was read or written.
fn run(rt: &HostRuntime) -> io::Result<Status> {
    let words = words(rt)?;
    let mut named = Vec::new(rt.alloc());
    for word in &words {
        named.push(word.as_str())?;
    }
    let alloc = rt.alloc();
    let types = type_checkers(alloc)?;
    let uses = use_checkers(alloc)?;
    let boxes: [Box<dyn Analysis>; 20] = [
        types.nan_made,
        types.undefined_joined,
        types.object_joined,
        types.undefined_key,
        types.put_on_primitive,
        types.wrapped_condition,
        types.loose_equal,
        types.odd_compare,
        types.typeof_text,
        types.bits_of_nothing,
        uses.shadow_write,
        uses.mixed_new,
        uses.object_prototype_write,
        uses.odd_prototype,
        uses.late_prototype,
        uses.for_in_array,
        uses.extra_arguments,
        uses.wrapper_made,
        uses.no_radix,
        uses.global_this,
    ];
    let mut crowd = Crowd::of(Vec::from_array(alloc, boxes)?);
    let keys = RandomState::new(rt)?;
    let mut source = InSource::new(rt.stdin());
    let mut sink = OutSink::new(rt.stdout());
    let mut shelf = Same::new();
    Ok(jlint(
        rt.alloc(),
        keys,
        &named,
        &mut source,
        &mut sink,
        &mut shelf,
        &mut crowd,
    ))
}

/// The words after the program's name, or none where one of them is not UTF-8.
fn words(rt: &HostRuntime) -> io::Result<Vec<String>> {
    let mut words = Vec::new(rt.alloc());
    match env::args(rt) {
        Ok(all) => {
            for word in all.skip(1) {
                words.push(word)?;
            }
        }
        Err(error) if error.kind() == ErrorKind::InvalidData => {}
        Err(error) => return Err(error),
    }
    Ok(words)
}
