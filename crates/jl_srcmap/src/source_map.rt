//! Source maps as JSON.
ghost use Rattle.std.specs.Prelude.{◌≡◌, IfErr, IfOk, codes, option_and_then, option_map};
ghost use Rattle.std.specs.Str.{IsAscii};
ghost use Rattle.serde_json.specs.Find.{as_array, get};
ghost use Rattle.serde_json.specs.View.{items_view, view};
ghost use Rattle.jl_srcmap.specs.SourceMap.{HasSegments, IsMap, IsRefusal, all_are, are_names, has_shape, is_list_of};
ghost use Rattle.jl_srcmap.specs.SourceMap.{is_text, is_text_or_null, is_three, mappings_in, source_map};
ghost use Rattle.jl_srcmap.specs.SourceMap.{source_map_text};
ghost use Rattle.jl_srcmap.specs.inner.Json.{IsJsonRefusal, IsMapOf, IsValueRefusal};

use crate::read::read_mappings;
use crate::refusal::MapRefusal;
use crate::segment::Segment;
use serde_json::{Error, Value, json};
use std::alloc::{AllocError, Global};
use std::str;

/// The source map with this mappings text, no names and the one source `script.js`, as JSON on one line, which LF ends.
pub fn write_json(alloc: Global, mappings: &[u8]) -> Result<Vec<u8>, AllocError>
    requires { IsAscii mappings.now }
    ensures text { IfOk result (λ bytes. bytes.items ≡ source_map_text mappings.now) }
    ensures reads_back { IfOk result (λ bytes. IsMap bytes.items mappings.now) }
{
    let Ok(mappings) = str::from_utf8(mappings) else {
        unreachable!();
    };
    let map = source_map(alloc, mappings)?;
    let mut bytes = map.to_vec(alloc)?;
    bytes.push(b'\n')?;
    Ok(bytes)
}

/// The source map with this mappings text, as a value.
fn source_map(alloc: Global, mappings: &str) -> Result<Value, AllocError>
    ensures { IfOk result (λ value. view value ≡ source_map mappings.now) }
{
    json!(in alloc; {"mappings": mappings, "names": [], "sources": ["script.js"], "version": 3})
}

/// The segments of a source map in JSON. Refused are, in this order, what is no JSON (`MapJson`), what is no source map
/// with a mappings text (`MapShape`), and what has a mappings text that is not read (`BadSegment`). Members of other
/// names are passed over; of equal names the last counts.
pub fn read_json(alloc: Global, bytes: &[u8]) -> Result<Vec<Segment>, MapRefusal>
    ensures read { IfOk result (λ ss. HasSegments bytes.now ss.items) }
    ensures refused { IfErr result (λ refusal. IsRefusal bytes.now refusal) }
{
    match Value::from_slice(alloc, bytes) {
        Ok(map) => read_map(alloc, &map),
        Err(error) => Err(refusal_of(&error)),
    }
}

/// The cause for which bytes are no JSON.
fn refusal_of(error: &Error) -> MapRefusal
    ensures { IsJsonRefusal error.now result }
{
    if error.is_memory() {
        MapRefusal::NoMemory
    } else {
        MapRefusal::MapJson
    }
}

/// The segments of a source map.
fn read_map(alloc: Global, map: &Value) -> Result<Vec<Segment>, MapRefusal>
    ensures read { IfOk result (λ ss. IsMapOf (view map.now) ss.items) }
    ensures refused { IfErr result (λ refusal. IsValueRefusal (view map.now) refusal) }
{
    let Some(mappings) = mappings_in(map) else {
        return Err(MapRefusal::MapShape);
    };
    read_mappings(alloc, mappings.as_bytes())
}

/// The mappings text of a source map.
fn mappings_in(map: &Value) -> Option<&str>
    ensures { option_map (λ text. text.now) result ≡ mappings_in (view map.now) }
{
    if has_shape(map) {
        map.get("mappings").and_then(Value::as_str)
    } else {
        None
    }
}

/// Whether the members of a source map beside its mappings are as they have to be.
fn has_shape(map: &Value) -> bool
    ensures { result ≡ has_shape (view map.now) }
{
    is_three(map.get("version").and_then(Value::as_u64)) && has_sources(map) && has_names(map)
}

fn is_three(version: Option<u64>) -> bool
    ensures { result ≡ is_three version }
{
    match version {
        Some(version) => version == 3,
        None => false,
    }
}

/// Whether the sources are a list of texts and nulls.
fn has_sources(map: &Value) -> bool
    ensures { result ≡ is_list_of is_text_or_null
        (option_and_then as_array (get (codes "sources") (view map.now))) }
{
    match map.get("sources").and_then(Value::as_array) {
        Some(sources) => are_texts_or_nulls(sources.as_slice()),
        None => false,
    }
}

/// Whether the names, if there are any, are a list of texts.
fn has_names(map: &Value) -> bool
    ensures { result ≡ are_names (get (codes "names") (view map.now)) }
{
    let Some(names) = map.get("names") else {
        return true;
    };
    match names.as_array() {
        Some(names) => are_texts(names.as_slice()),
        None => false,
    }
}

fn are_texts(mut values: &[Value]) -> bool
    ensures { result ≡ all_are is_text (items_view values.entry.now) }
{
    while let [value, others @ ..] = values {
        if !value.is_string() {
            return false;
        }
        values = others;
    }
    true
}

fn are_texts_or_nulls(mut values: &[Value]) -> bool
    ensures { result ≡ all_are is_text_or_null (items_view values.entry.now) }
{
    while let [value, others @ ..] = values {
        if !value.is_string() && !value.is_null() {
            return false;
        }
        values = others;
    }
    true
}
