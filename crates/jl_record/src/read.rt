// The text of a stored run, line by line.
ghost use Rattle.std.specs.Prelude.{◌≡◌, ◌+◌, ◌<◌, ◌≤◌, ◌^◌, [], ◌∷◌, ◌++◌, length, IfOk, OnOk};
ghost use Rattle.jl_record.specs.Lines.{with_ends};
ghost use Rattle.jl_record.specs.Ranks.{last_rank, rank};
ghost use Rattle.jl_record.specs.Records.{IsStored, IsRefusedAt, text_of, first_line};
ghost use Rattle.jl_record.specs.Stages.{AtRows, AtOff, AtOperations, IsText, OnBad, stored};

use crate::cuts::next_line;
use crate::line_facts::{count_of, off_of, operation_of, row_of};
use crate::record::{ReadRecordRefusal, Record};
use jl_op::{Op, OpId, OpKind};
use jl_report::Off;
use jl_text::is_spelled;
use std::alloc::Global;

// The rank of the last rule on the last line.
const MOST_RANK: u64 = 85_899_345_920;

// How many pairs of a line and a rule there are.
const MOST_PAIRS: u64 = 85_899_345_900;

/// The stored run whose text the units are.
pub fn read_record(alloc: Global, units: &[u16]) -> Result<Record, ReadRecordRefusal>
    ensures found { IfOk result (λ r. IsStored (stored r) × (text_of (stored r) ≡ units.now)) }
    ensures refused { OnBad result (IsRefusedAt units.now) }
{
    let rest = read_first(units)?;
    let (count, rest) = read_row_count(units, rest)?;
    let (rows, rest) = read_rows(alloc, units, count, rest)?;
    let (count, rest) = read_off_count(units, rows.as_slice(), rest)?;
    let (off, rest) = read_off(alloc, units, rows.as_slice(), count, rest)?;
    let (count, rest) = read_op_count(units, rows.as_slice(), off.as_slice(), rest)?;
    let (ops, rest) = read_ops(alloc, units, rows.as_slice(), off.as_slice(), count, rest)?;
    read_last(units, rows.as_slice(), off.as_slice(), ops.as_slice(), rest)?;
    Ok(Record {
        rows,
        off: Off::of(off),
        ops,
    })
}

fn read_first(units: &[u16]) -> Result<&[u16], ReadRecordRefusal>
    ensures found { IfOk result (λ rest. units.now ≡ with_ends (first_line ∷ []) ++ rest.now) }
    ensures refused { OnBad result (IsRefusedAt units.now) }
{
    match next_line(units) {
        Some((line, rest)) => {
            if is_spelled(line, b"jlint-record 1") {
                Ok(rest)
            } else {
                Err(ReadRecordRefusal::BadRecord { line: 1 })
            }
        }
        None => Err(ReadRecordRefusal::BadRecord { line: 1 }),
    }
}

fn read_row_count<'u>(units: &[u16], rest: &'u [u16]) -> Result<(u32, &'u [u16]), ReadRecordRefusal>
    requires { units.now ≡ with_ends (first_line ∷ []) ++ rest.now }
    ensures found { IfOk result (λ x. AtRows units.now x.1.now x.0 []) }
    ensures refused { OnBad result (IsRefusedAt units.now) }
{
    let bad = ReadRecordRefusal::BadRecord { line: 2 };
    match next_line(rest) {
        Some((line, after)) => match count_of(line, "rows") {
            Some(count) => {
                if count <= u64::from(u32::MAX) {
                    Ok((count as u32, after))
                } else {
                    Err(bad)
                }
            }
            None => Err(bad),
        },
        None => Err(bad),
    }
}

fn read_rows<'u>(
    alloc: Global,
    units: &[u16],
    count: u32,
    rest: &'u [u16],
) -> Result<(Vec<(OpKind, u32, u32)>, &'u [u16]), ReadRecordRefusal>
    requires { AtRows units.now rest.now count [] }
    ensures found { IfOk result (λ x. (length x.0.items ≡ count) × AtRows units.now x.1.now count x.0.items) }
    ensures refused { OnBad result (IsRefusedAt units.now) }
{
    let mut rows = Vec::new(alloc);
    let mut rest = rest;
    for i in 0..count {
        let (row, after) = next_row(units, rows.as_slice(), count, rest)?;
        rows.push(row)?;
        rest = after;
    }
    Ok((rows, rest))
}

fn next_row<'u>(
    units: &[u16],
    rows: &[(OpKind, u32, u32)],
    count: u32,
    rest: &'u [u16],
) -> Result<((OpKind, u32, u32), &'u [u16]), ReadRecordRefusal>
    requires at { AtRows units.now rest.now count rows.now }
    requires more { length rows.now < count }
    ensures found { IfOk result (λ x. AtRows units.now x.1.now count (rows.now ++ x.0 ∷ [])) }
    ensures refused { OnBad result (IsRefusedAt units.now) }
{
    let bad = ReadRecordRefusal::BadRecord {
        line: rows.len() as u64 + 3,
    };
    match next_line(rest) {
        Some((line, after)) => match row_of(line) {
            Some(row) => Ok((row, after)),
            None => Err(bad),
        },
        None => Err(bad),
    }
}

fn read_off_count<'u>(
    units: &[u16],
    rows: &[(OpKind, u32, u32)],
    rest: &'u [u16],
) -> Result<(u64, &'u [u16]), ReadRecordRefusal>
    requires { AtRows units.now rest.now (length rows.now) rows.now }
    ensures found { IfOk result (λ x. AtOff units.now x.1.now rows.now x.0 []) }
    ensures refused { OnBad result (IsRefusedAt units.now) }
{
    let bad = ReadRecordRefusal::BadRecord {
        line: rows.len() as u64 + 3,
    };
    match next_line(rest) {
        Some((line, after)) => match count_of(line, "off") {
            Some(count) => {
                if count <= MOST_PAIRS {
                    Ok((count, after))
                } else {
                    Err(bad)
                }
            }
            None => Err(bad),
        },
        None => Err(bad),
    }
}

fn read_off<'u>(
    alloc: Global,
    units: &[u16],
    rows: &[(OpKind, u32, u32)],
    count: u64,
    rest: &'u [u16],
) -> Result<(Vec<(u32, u32)>, &'u [u16]), ReadRecordRefusal>
    requires { AtOff units.now rest.now rows.now count [] }
    ensures found { IfOk result (λ x. (length x.0.items ≡ count) × AtOff units.now x.1.now rows.now count x.0.items) }
    ensures refused { OnBad result (IsRefusedAt units.now) }
{
    let mut off = Vec::new(alloc);
    let mut rest = rest;
    let mut last = 20;
    for i in 0..count {
        let (pair, after) = next_off(units, rows, count, off.as_slice(), last, rest)?;
        off.push(pair)?;
        last = rank_of(pair);
        rest = after;
    }
    Ok((off, rest))
}

// The rank of a pair of a line and a rule, by which pairs are ordered.
fn rank_of(pair: (u32, u32)) -> u64
    ensures { result ≡ rank pair }
{
    u64::from(pair.0) * 20 + u64::from(pair.1)
}

fn next_off<'u>(
    units: &[u16],
    rows: &[(OpKind, u32, u32)],
    count: u64,
    off: &[(u32, u32)],
    last: u64,
    rest: &'u [u16],
) -> Result<((u32, u32), &'u [u16]), ReadRecordRefusal>
    requires at { AtOff units.now rest.now rows.now count off.now }
    requires more { length off.now < count }
    requires last { last ≡ last_rank 20 off.now }
    ensures found { IfOk result (λ x. AtOff units.now x.1.now rows.now count (off.now ++ x.0 ∷ [])) }
    ensures refused { OnBad result (IsRefusedAt units.now) }
{
    let bad = ReadRecordRefusal::BadRecord {
        line: (rows.len() + off.len()) as u64 + 4,
    };
    match next_line(rest) {
        Some((line, after)) => match off_of(line) {
            Some(pair) => {
                let left = count - off.len() as u64 - 1;
                let rank = rank_of(pair);
                if last < rank && rank + left <= MOST_RANK {
                    Ok((pair, after))
                } else {
                    Err(bad)
                }
            }
            None => Err(bad),
        },
        None => Err(bad),
    }
}

fn read_op_count<'u>(
    units: &[u16],
    rows: &[(OpKind, u32, u32)],
    off: &[(u32, u32)],
    rest: &'u [u16],
) -> Result<(u64, &'u [u16]), ReadRecordRefusal>
    requires { AtOff units.now rest.now rows.now (length off.now) off.now }
    ensures found { IfOk result (λ x. AtOperations units.now x.1.now rows.now off.now x.0 []) }
    ensures refused { OnBad result (IsRefusedAt units.now) }
{
    let bad = ReadRecordRefusal::BadRecord {
        line: (rows.len() + off.len()) as u64 + 4,
    };
    match next_line(rest) {
        Some((line, after)) => match count_of(line, "ops") {
            Some(count) => {
                if count == 0 || rows.len() > 0 {
                    Ok((count, after))
                } else {
                    Err(bad)
                }
            }
            None => Err(bad),
        },
        None => Err(bad),
    }
}

fn read_ops<'u>(
    alloc: Global,
    units: &[u16],
    rows: &[(OpKind, u32, u32)],
    off: &[(u32, u32)],
    count: u64,
    rest: &'u [u16],
) -> Result<(Vec<(OpId, Op)>, &'u [u16]), ReadRecordRefusal>
    requires { AtOperations units.now rest.now rows.now off.now count [] }
    ensures found { IfOk result (λ x. (length x.0.items ≡ count)
        × AtOperations units.now x.1.now rows.now off.now count x.0.items) }
    ensures refused { OnBad result (IsRefusedAt units.now) }
{
    let mut ops = Vec::new(alloc);
    let mut rest = rest;
    for i in 0..count {
        let (op, after) = next_op(alloc, units, rows, off, count, ops.as_slice(), rest)?;
        ops.push(op)?;
        rest = after;
    }
    Ok((ops, rest))
}

fn next_op<'u>(
    alloc: Global,
    units: &[u16],
    rows: &[(OpKind, u32, u32)],
    off: &[(u32, u32)],
    count: u64,
    ops: &[(OpId, Op)],
    rest: &'u [u16],
) -> Result<((OpId, Op), &'u [u16]), ReadRecordRefusal>
    requires at { AtOperations units.now rest.now rows.now off.now count ops.now }
    requires more { length ops.now < count }
    ensures found { IfOk result (λ x. AtOperations units.now x.1.now rows.now off.now count (ops.now ++ x.0 ∷ [])) }
    ensures refused { OnBad result (IsRefusedAt units.now) }
{
    let bad = (rows.len() + off.len() + ops.len()) as u64 + 5;
    match next_line(rest) {
        Some((line, after)) => match operation_of(alloc, rows, line)? {
            Some(op) => Ok((op, after)),
            None => Err(ReadRecordRefusal::BadRecord { line: bad }),
        },
        None => Err(ReadRecordRefusal::BadRecord { line: bad }),
    }
}

fn read_last(
    units: &[u16],
    rows: &[(OpKind, u32, u32)],
    off: &[(u32, u32)],
    ops: &[(OpId, Op)],
    rest: &[u16],
) -> Result<(), ReadRecordRefusal>
    requires { AtOperations units.now rest.now rows.now off.now (length ops.now) ops.now }
    ensures found { OnOk result (IsText units.now rows.now off.now ops.now) }
    ensures refused { OnBad result (IsRefusedAt units.now) }
{
    let line_number = (rows.len() + off.len() + ops.len()) as u64 + 5;
    match next_line(rest) {
        Some((line, after)) => {
            if is_spelled(line, b"end") {
                if after.is_empty() {
                    Ok(())
                } else {
                    Err(ReadRecordRefusal::BadRecord {
                        line: line_number + 1,
                    })
                }
            } else {
                Err(ReadRecordRefusal::BadRecord { line: line_number })
            }
        }
        None => Err(ReadRecordRefusal::BadRecord { line: line_number }),
    }
}
