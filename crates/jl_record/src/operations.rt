// The operation of a kind whose facts units are.
ghost use Rattle.std.specs.Prelude.{◌≡◌, ℕ, List, IfOk, MatchOption};
ghost use Rattle.jl_op.specs.declared.kind.OpKind.TheVariants as kinds;
ghost use Rattle.jl_record.specs.OperationReads.{IsReadAs};

use crate::fact::Facts;
use jl_ast::BinOp;
use jl_op::{Callee, Found, Op, OpKind, UnKind};
use jl_text::{List as Items, Text};
use jl_value::{ObjId, Seen};
use std::alloc::{AllocError, Global};

/// The operation of a kind with the facts that the units are, each after a space.
pub(crate) fn operation_with(
    alloc: Global,
    kind: OpKind,
    units: &[u16],
) -> Result<Option<Op>, AllocError>
    ensures { IfOk result (IsReadAs kind units.now) }
{
    match kind {
        OpKind::ScriptEnter => script_enter(alloc, units),
        OpKind::ScriptExit => script_exit(alloc, units),
        OpKind::FunctionEnter => function_enter(alloc, units),
        OpKind::FunctionExit => function_exit(alloc, units),
        OpKind::Literal => literal(alloc, units),
        OpKind::ArrayLiteral => array_literal(alloc, units),
        OpKind::ObjectLiteral => object_literal(alloc, units),
        OpKind::FunctionLiteral => function_literal(alloc, units),
        OpKind::Read => read(alloc, units),
        OpKind::Write => write(alloc, units),
        OpKind::TypeofName => typeof_name(alloc, units),
        OpKind::GetField => get_field(alloc, units),
        OpKind::PutField => put_field(alloc, units),
        OpKind::DeleteField => delete_field(alloc, units),
        OpKind::InvokePre => invoke_pre(alloc, units),
        OpKind::InvokePost => invoke_post(alloc, units),
        OpKind::Binary => binary(alloc, units),
        OpKind::Unary => unary(alloc, units),
        OpKind::Conditional => conditional(alloc, units),
        OpKind::ForIn => for_in(alloc, units),
        OpKind::Return => return_of(alloc, units),
        OpKind::Throw => throw_of(alloc, units),
        OpKind::Catch => catch_of(alloc, units),
    }
}

fn script_enter(alloc: Global, units: &[u16]) -> Result<Option<Op>, AllocError>
    ensures { IfOk result (IsReadAs kinds.ScriptEnter units.now) }
{
    let Some(()) = <()>::read(alloc, units)? else {
        return Ok(None);
    };
    Ok(Some(Op::ScriptEnter))
}

fn script_exit(alloc: Global, units: &[u16]) -> Result<Option<Op>, AllocError>
    ensures { IfOk result (IsReadAs kinds.ScriptExit units.now) }
{
    let Some(()) = <()>::read(alloc, units)? else {
        return Ok(None);
    };
    Ok(Some(Op::ScriptExit))
}

fn function_enter(alloc: Global, units: &[u16]) -> Result<Option<Op>, AllocError>
    ensures { IfOk result (IsReadAs kinds.FunctionEnter units.now) }
{
    let Some((function, (this, (args, (by_new, ()))))) = <(u32, (Seen, (u64, (bool, ()))))>::read(
        alloc, units,
    )?
    else {
        return Ok(None);
    };
    Ok(Some(Op::FunctionEnter {
        function,
        this,
        args,
        by_new,
    }))
}

fn function_exit(alloc: Global, units: &[u16]) -> Result<Option<Op>, AllocError>
    ensures { IfOk result (IsReadAs kinds.FunctionExit units.now) }
{
    let Some((function, ())) = <(u32, ())>::read(alloc, units)? else {
        return Ok(None);
    };
    Ok(Some(Op::FunctionExit { function }))
}

fn literal(alloc: Global, units: &[u16]) -> Result<Option<Op>, AllocError>
    ensures { IfOk result (IsReadAs kinds.Literal units.now) }
{
    let Some((value, ())) = <(Seen, ())>::read(alloc, units)? else {
        return Ok(None);
    };
    Ok(Some(Op::Literal { value }))
}

fn array_literal(alloc: Global, units: &[u16]) -> Result<Option<Op>, AllocError>
    ensures { IfOk result (IsReadAs kinds.ArrayLiteral units.now) }
{
    let Some((obj, ())) = <(ObjId, ())>::read(alloc, units)? else {
        return Ok(None);
    };
    Ok(Some(Op::ArrayLiteral { obj }))
}

fn object_literal(alloc: Global, units: &[u16]) -> Result<Option<Op>, AllocError>
    ensures { IfOk result (IsReadAs kinds.ObjectLiteral units.now) }
{
    let Some((obj, ())) = <(ObjId, ())>::read(alloc, units)? else {
        return Ok(None);
    };
    Ok(Some(Op::ObjectLiteral { obj }))
}

fn function_literal(alloc: Global, units: &[u16]) -> Result<Option<Op>, AllocError>
    ensures { IfOk result (IsReadAs kinds.FunctionLiteral units.now) }
{
    let Some((obj, (function, ()))) = <(ObjId, (u32, ()))>::read(alloc, units)? else {
        return Ok(None);
    };
    Ok(Some(Op::FunctionLiteral { obj, function }))
}

fn read(alloc: Global, units: &[u16]) -> Result<Option<Op>, AllocError>
    ensures { IfOk result (IsReadAs kinds.Read units.now) }
{
    let Some((name, (value, ()))) = <(Text, (Seen, ()))>::read(alloc, units)? else {
        return Ok(None);
    };
    Ok(Some(Op::Read { name, value }))
}

fn write(alloc: Global, units: &[u16]) -> Result<Option<Op>, AllocError>
    ensures { IfOk result (IsReadAs kinds.Write units.now) }
{
    let Some((name, (value, ()))) = <(Text, (Seen, ()))>::read(alloc, units)? else {
        return Ok(None);
    };
    Ok(Some(Op::Write { name, value }))
}

fn typeof_name(alloc: Global, units: &[u16]) -> Result<Option<Op>, AllocError>
    ensures { IfOk result (IsReadAs kinds.TypeofName units.now) }
{
    let Some((name, (result, ()))) = <(Text, (Text, ()))>::read(alloc, units)? else {
        return Ok(None);
    };
    Ok(Some(Op::TypeofName { name, result }))
}

fn get_field(alloc: Global, units: &[u16]) -> Result<Option<Op>, AllocError>
    ensures { IfOk result (IsReadAs kinds.GetField units.now) }
{
    let Some((base, (name, (value, (found, ()))))) = <(Seen, (Text, (Seen, (Found, ()))))>::read(
        alloc, units,
    )?
    else {
        return Ok(None);
    };
    Ok(Some(Op::GetField {
        base,
        name,
        value,
        found,
    }))
}

fn put_field(alloc: Global, units: &[u16]) -> Result<Option<Op>, AllocError>
    ensures { IfOk result (IsReadAs kinds.PutField units.now) }
{
    let Some((base, (name, (value, (found, ()))))) = <(Seen, (Text, (Seen, (Found, ()))))>::read(
        alloc, units,
    )?
    else {
        return Ok(None);
    };
    Ok(Some(Op::PutField {
        base,
        name,
        value,
        found,
    }))
}

fn delete_field(alloc: Global, units: &[u16]) -> Result<Option<Op>, AllocError>
    ensures { IfOk result (IsReadAs kinds.DeleteField units.now) }
{
    let Some((base, (name, (result, ())))) = <(Seen, (Text, (bool, ())))>::read(alloc, units)?
    else {
        return Ok(None);
    };
    Ok(Some(Op::DeleteField { base, name, result }))
}

fn invoke_pre(alloc: Global, units: &[u16]) -> Result<Option<Op>, AllocError>
    ensures { IfOk result (IsReadAs kinds.InvokePre units.now) }
{
    let Some((callee, (target, (this, (args, (by_new, ())))))) = <(
        ObjId,
        (Callee, (Seen, (Items<Seen>, (bool, ())))),
    )>::read(alloc, units)?
    else {
        return Ok(None);
    };
    Ok(Some(Op::InvokePre {
        callee,
        target,
        this,
        args,
        by_new,
    }))
}

fn invoke_post(alloc: Global, units: &[u16]) -> Result<Option<Op>, AllocError>
    ensures { IfOk result (IsReadAs kinds.InvokePost units.now) }
{
    let Some((callee, (result, ()))) = <(ObjId, (Seen, ()))>::read(alloc, units)? else {
        return Ok(None);
    };
    Ok(Some(Op::InvokePost { callee, result }))
}

fn binary(alloc: Global, units: &[u16]) -> Result<Option<Op>, AllocError>
    ensures { IfOk result (IsReadAs kinds.Binary units.now) }
{
    let Some((op, (left, (right, (result, ()))))) = <(BinOp, (Seen, (Seen, (Seen, ()))))>::read(
        alloc, units,
    )?
    else {
        return Ok(None);
    };
    Ok(Some(Op::Binary {
        op,
        left,
        right,
        result,
    }))
}

fn unary(alloc: Global, units: &[u16]) -> Result<Option<Op>, AllocError>
    ensures { IfOk result (IsReadAs kinds.Unary units.now) }
{
    let Some((op, (operand, (result, ())))) = <(UnKind, (Seen, (Seen, ())))>::read(alloc, units)?
    else {
        return Ok(None);
    };
    Ok(Some(Op::Unary {
        op,
        operand,
        result,
    }))
}

fn conditional(alloc: Global, units: &[u16]) -> Result<Option<Op>, AllocError>
    ensures { IfOk result (IsReadAs kinds.Conditional units.now) }
{
    let Some((value, ())) = <(Seen, ())>::read(alloc, units)? else {
        return Ok(None);
    };
    Ok(Some(Op::Conditional { value }))
}

fn for_in(alloc: Global, units: &[u16]) -> Result<Option<Op>, AllocError>
    ensures { IfOk result (IsReadAs kinds.ForIn units.now) }
{
    let Some((object, ())) = <(Seen, ())>::read(alloc, units)? else {
        return Ok(None);
    };
    Ok(Some(Op::ForIn { object }))
}

fn return_of(alloc: Global, units: &[u16]) -> Result<Option<Op>, AllocError>
    ensures { IfOk result (IsReadAs kinds.Return units.now) }
{
    let Some((value, ())) = <(Seen, ())>::read(alloc, units)? else {
        return Ok(None);
    };
    Ok(Some(Op::Return { value }))
}

fn throw_of(alloc: Global, units: &[u16]) -> Result<Option<Op>, AllocError>
    ensures { IfOk result (IsReadAs kinds.Throw units.now) }
{
    let Some((value, ())) = <(Seen, ())>::read(alloc, units)? else {
        return Ok(None);
    };
    Ok(Some(Op::Throw { value }))
}

fn catch_of(alloc: Global, units: &[u16]) -> Result<Option<Op>, AllocError>
    ensures { IfOk result (IsReadAs kinds.Catch units.now) }
{
    let Some((name, (value, ()))) = <(Text, (Seen, ()))>::read(alloc, units)? else {
        return Ok(None);
    };
    Ok(Some(Op::Catch { name, value }))
}
