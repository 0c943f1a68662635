// The lines of a stored run as they are written.
ghost use Rattle.std.specs.Prelude.{◌≡◌, ◌++◌, ◌∷◌, [], List, ℕ, OnOk, All, map, true};
ghost use Rattle.std.specs.List.{AllByRecursion};
ghost use Rattle.jl_analysis.specs.Rules.{IsRule};
ghost use Rattle.jl_op.specs.Kinds.{kind_of};
ghost use Rattle.jl_op.specs.Map.{BeginsIn};
ghost use Rattle.jl_record.specs.Bounded.{Appends};
ghost use Rattle.jl_record.specs.Facts.{marks};
ghost use Rattle.jl_record.specs.Operations.{sorts_of, facts_of};
ghost use Rattle.jl_record.specs.Reading.{after_space};
ghost use Rattle.jl_record.specs.Fronts.{operations_so_far};
ghost use Rattle.jl_record.specs.Lines.{with_ends};
ghost use Rattle.jl_record.specs.Plain.{is_plain};
ghost use Rattle.jl_record.specs.Recording.{rows_of};
ghost use Rattle.jl_record.specs.Records.{operation_line, row_line, off_line, count_line};
ghost use Rattle.jl_record.specs.Storing.{CanBeStored, HasItsClass};
ghost use Rattle.jl_value.specs.declared.value.Seen.{Seen};

use crate::bounded::Bounded;
use crate::fact::Fact;
use crate::named::Named;
use jl_analysis::rule_name;
use jl_op::{Op, OpId, OpKind, OpMap};
use jl_report::Off;
use jl_text::Lines;
use std::alloc::{AllocError, Global};

/// Facts that are lent, one after another.
trait Lent: Copy {
    /// How they are written.
    ghost written: { Self → List ℕ };

    /// They are facts that a stored run may have.
    ghost are: { Self → Type 0 };

    /// The values among them.
    ghost values: { Self → List Seen };

    /// Appends each after a space. A stored run may have them, if each value among them has its class.
    fn write(self, alloc: Global, text: &mut Bounded) -> Result<(), AllocError>
        ensures limit { text.new.limit ≡ text.old.limit }
        ensures holds { OnOk result (Appends text.old text.new (written self)) }
        ensures facts { OnOk result (AllByRecursion HasItsClass (values self) → are self) };
}

impl Lent for () {
    ghost written = { λ _. [] };

    ghost are = { λ _. Unit {0} };

    ghost values = { λ _. [] };

    #[tactic(auto, using(crate::proofs::WrittenParts::appends_nothing))]
    fn write(self, _alloc: Global, _text: &mut Bounded) -> Result<(), AllocError> {
        Ok(())
    }
}

impl<'a, A: Fact, B: Lent> Lent for (&'a A, B) {
    ghost written = { λ facts. after_space (A.written facts.0.now) (B.written facts.1) };

    ghost are = { λ facts. A.is facts.0.now × B.are facts.1 };

    ghost values = { λ facts. A.values facts.0.now ++ B.values facts.1 };

    #[tactic(auto, using(crate::proofs::WrittenParts::appends_fact))]
    fn write(self, alloc: Global, text: &mut Bounded) -> Result<(), AllocError> {
        text.word(" ")?;
        self.0.write(alloc, text)?;
        self.1.write(alloc, text)
    }
}

/// The facts of an operation.
fn write_facts(alloc: Global, text: &mut Bounded, op: &Op) -> Result<(), AllocError>
    ensures limit { text.new.limit ≡ text.old.limit }
    ensures holds { OnOk result (Appends text.old text.new (marks (sorts_of (kind_of op.now)) (facts_of op.now))) }
    ensures facts { OnOk result (CanBeStored op.now) }
{
    match op {
        Op::ScriptEnter => ().write(alloc, text),
        Op::ScriptExit => ().write(alloc, text),
        Op::FunctionEnter {
            function,
            this,
            args,
            by_new,
        } => (function, (this, (args, (by_new, ())))).write(alloc, text),
        Op::FunctionExit { function } => (function, ()).write(alloc, text),
        Op::Literal { value } => (value, ()).write(alloc, text),
        Op::ArrayLiteral { obj } => (obj, ()).write(alloc, text),
        Op::ObjectLiteral { obj } => (obj, ()).write(alloc, text),
        Op::FunctionLiteral { obj, function } => (obj, (function, ())).write(alloc, text),
        Op::Read { name, value } => (name, (value, ())).write(alloc, text),
        Op::Write { name, value } => (name, (value, ())).write(alloc, text),
        Op::TypeofName { name, result } => (name, (result, ())).write(alloc, text),
        Op::GetField {
            base,
            name,
            value,
            found,
        } => (base, (name, (value, (found, ())))).write(alloc, text),
        Op::PutField {
            base,
            name,
            value,
            found,
        } => (base, (name, (value, (found, ())))).write(alloc, text),
        Op::DeleteField { base, name, result } => (base, (name, (result, ()))).write(alloc, text),
        Op::InvokePre {
            callee,
            target,
            this,
            args,
            by_new,
        } => (callee, (target, (this, (args, (by_new, ()))))).write(alloc, text),
        Op::InvokePost { callee, result } => (callee, (result, ())).write(alloc, text),
        Op::Binary {
            op,
            left,
            right,
            result,
        } => (op, (left, (right, (result, ())))).write(alloc, text),
        Op::Unary {
            op,
            operand,
            result,
        } => (op, (operand, (result, ()))).write(alloc, text),
        Op::Conditional { value } => (value, ()).write(alloc, text),
        Op::ForIn { object } => (object, ()).write(alloc, text),
        Op::Return { value } => (value, ()).write(alloc, text),
        Op::Throw { value } => (value, ()).write(alloc, text),
        Op::Catch { name, value } => (name, (value, ())).write(alloc, text),
    }
}

/// The line of an operation, with its LF.
pub(crate) fn write_operation(
    alloc: Global,
    text: &mut Bounded,
    id: OpId,
    op: &Op,
) -> Result<(), AllocError>
    ensures limit { text.new.limit ≡ text.old.limit }
    ensures holds { OnOk result (Appends text.old text.new (operation_line (id, op.now) ++ 10 ∷ [])) }
    ensures facts { OnOk result (CanBeStored op.now) }
{
    text.number(u64::from(id.0))?;
    text.word(" ")?;
    text.word(op.kind().spelling())?;
    write_facts(alloc, text, op)?;
    text.word("\n")
}

/// A line that counts, with its LF.
fn write_count(text: &mut Bounded, word: &str, count: u64) -> Result<(), AllocError>
    requires { is_plain word.now ≡ true }
    ensures limit { text.new.limit ≡ text.old.limit }
    ensures holds { OnOk result (Appends text.old text.new (count_line word.now count ++ 10 ∷ [])) }
{
    text.word(word)?;
    text.word(" ")?;
    text.number(count)?;
    text.word("\n")
}

/// The line of a row, with its LF.
fn write_row(text: &mut Bounded, kind: OpKind, line: u32, column: u32) -> Result<(), AllocError>
    ensures limit { text.new.limit ≡ text.old.limit }
    ensures holds { OnOk result (Appends text.old text.new (row_line (kind, line, column) ++ 10 ∷ [])) }
{
    text.word(kind.spelling())?;
    text.word(" ")?;
    text.number(u64::from(line))?;
    text.word(":")?;
    text.number(u64::from(column))?;
    text.word("\n")
}

/// The lines of the rows.
fn write_rows(text: &mut Bounded, rows: &OpMap, lines: &Lines) -> Result<(), AllocError>
    requires { All (BeginsIn lines.now) rows.now }
    ensures limit { text.new.limit ≡ text.old.limit }
    ensures holds { OnOk result (Appends text.old text.new (with_ends (map row_line (rows_of lines.now rows.now)))) }
{
    for before in 0..rows.len() {
        let id = OpId(before + 1);
        let (line, column) = lines.line_col(rows.place_of(id).from);
        write_row(text, rows.kind_of(id), line, column)?;
    }
    Ok(())
}

/// The line of a pair of a line and a rule, with its LF.
#[tactic(auto, using(crate::proofs::PlainNames::rule_is_plain))]
fn write_pair(text: &mut Bounded, pair: (u32, u32)) -> Result<(), AllocError>
    requires { IsRule pair.1 }
    ensures limit { text.new.limit ≡ text.old.limit }
    ensures holds { OnOk result (Appends text.old text.new (off_line pair ++ 10 ∷ [])) }
{
    let (line, rule) = pair;
    text.number(u64::from(line))?;
    text.word(" ")?;
    text.word(rule_name(rule))?;
    text.word("\n")
}

/// The lines of what is switched off.
fn write_pairs(text: &mut Bounded, pairs: &[(u32, u32)]) -> Result<(), AllocError>
    requires { All (λ pair. IsRule pair.1) pairs.now }
    ensures limit { text.new.limit ≡ text.old.limit }
    ensures holds { OnOk result (Appends text.old text.new (with_ends (map off_line pairs.now))) }
{
    for pair in pairs {
        write_pair(text, *pair)?;
    }
    Ok(())
}

/// The lines before those of the operations, of which there are `count`.
pub(crate) fn write_head(
    text: &mut Bounded,
    rows: &OpMap,
    lines: &Lines,
    off: &Off,
    count: u64,
) -> Result<(), AllocError>
    requires places { All (BeginsIn lines.now) rows.now }
    requires rules { All (λ pair. IsRule pair.1) off.now }
    ensures limit { text.new.limit ≡ text.old.limit }
    ensures holds { OnOk result (Appends text.old text.new
        (with_ends (operations_so_far (rows_of lines.now rows.now) off.now count []))) }
{
    let pairs = off.pairs();
    text.word("jlint-record 1\n")?;
    write_count(text, "rows", u64::from(rows.len()))?;
    write_rows(text, rows, lines)?;
    write_count(text, "off", pairs.len() as u64)?;
    write_pairs(text, pairs)?;
    write_count(text, "ops", count)
}
