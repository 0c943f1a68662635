//! Expressions that go on with the value that they waited for (clause 11).
ghost use Rattle.jl_state.specs.Clauses.{RankAtMost, Resumes};
ghost use Rattle.std.specs.Prelude.{◌+◌};
ghost use Rattle.jl_state.specs.Rank.{rank_value};

use jl_call::{
    step_argument, step_callee, step_callee_dot_base, step_callee_index_base,
    step_callee_index_key, step_compute_pending, step_key, step_method_pending,
    step_update_operand_primitive,
};
use jl_function::{step_constructed, step_instance_prototype};
use jl_literal::{
    step_and, step_comma, step_conditional, step_element, step_entries, step_entry_value,
    step_left_operand, step_operand, step_or, step_right_operand,
};
use jl_member::{
    step_assign_dot_base, step_assign_index_base, step_assign_index_key, step_compute_member,
    step_compute_member_operand, step_compute_name, step_compute_name_operand,
    step_delete_dot_base, step_delete_index_base, step_delete_index_key, step_delete_value,
    step_dot_base, step_index_base, step_index_key, step_put_member, step_update_dot_base,
    step_update_index_base, step_update_index_key, step_update_member,
    step_update_member_primitive, step_update_name, step_update_name_primitive, step_write_name,
};
use jl_operator::{step_emit_binary, step_emit_get, step_emit_invoke, step_emit_unary};
use jl_state::{Act, State, ValueFrame};
use jl_text::NoMemory;
use jl_value::Value;

/// An expression goes on with the value that it waited for.
pub fn step_value<'p>(
    state: &mut State<'p>,
    frame: ValueFrame<'p>,
    v: Value,
) -> Result<Act<'p>, NoMemory>
    ensures refines { Resumes state.old frame.entry v result state.new }
    ensures bounded { RankAtMost state.old (rank_value frame.entry + 2) result state.new }
{
    match frame {
        ValueFrame::Element {
            array,
            index,
            rest,
            here,
        } => step_element(state, array, index, rest, here, v),
        ValueFrame::EntryValue {
            object,
            key,
            rest,
            here,
        } => step_entry_value(state, object, key, rest, here, v),
        ValueFrame::Entries { object, rest, here } => step_entries(state, object, rest, here, v),
        ValueFrame::DotBase { key } => step_dot_base(state, key, v),
        ValueFrame::IndexBase { key, here } => step_index_base(state, key, here, v),
        ValueFrame::IndexKey { base } => step_index_key(state, base, v),
        ValueFrame::Key(purpose) => step_key(state, purpose.into_inner(), v),
        ValueFrame::Callee {
            this,
            by_new,
            args,
            here,
        } => step_callee(state, this, by_new, args, here, v),
        ValueFrame::CalleeDotBase { key, args, here } => step_callee_dot_base(
            state, key, args, here, v,
        ),
        ValueFrame::CalleeIndexBase { key, args, here } => step_callee_index_base(
            state, key, args, here, v,
        ),
        ValueFrame::CalleeIndexKey { base, args, here } => step_callee_index_key(
            state, base, args, here, v,
        ),
        ValueFrame::Argument(arguments) => step_argument(state, arguments, v),
        ValueFrame::Operand { op } => step_operand(state, op, v),
        ValueFrame::DeleteValue => step_delete_value(state, v),
        ValueFrame::DeleteDotBase { key, strict } => step_delete_dot_base(state, key, strict, v),
        ValueFrame::DeleteIndexBase { key, here } => step_delete_index_base(state, key, here, v),
        ValueFrame::DeleteIndexKey { base, strict } => step_delete_index_key(
            state, base, strict, v,
        ),
        ValueFrame::LeftOperand { op, right, here } => step_left_operand(state, op, right, here, v),
        ValueFrame::RightOperand { op, left } => step_right_operand(state, op, left, v),
        ValueFrame::And { right, here } => step_and(state, right, here, v),
        ValueFrame::Or { right, here } => step_or(state, right, here, v),
        ValueFrame::Conditional {
            first,
            second,
            here,
        } => step_conditional(state, first, second, here, v),
        ValueFrame::Comma { right, here } => step_comma(state, right, here, v),
        ValueFrame::WriteName {
            id,
            name,
            reference,
            strict,
        } => step_write_name(state, id, name, reference, strict, v),
        ValueFrame::ComputeName {
            name,
            reference,
            op,
            value,
            here,
        } => step_compute_name(state, name, reference, op, value, here, v),
        ValueFrame::ComputeNameOperand {
            name,
            reference,
            op,
            held,
            strict,
        } => step_compute_name_operand(state, name, reference, op, held, strict, v),
        ValueFrame::UpdateName {
            name,
            reference,
            up,
            prefix,
            strict,
        } => step_update_name(state, name, reference, up, prefix, strict, v),
        ValueFrame::UpdateNamePrimitive {
            name,
            reference,
            up,
            prefix,
            strict,
            held,
        } => step_update_name_primitive(state, name, reference, up, prefix, strict, held, v),
        ValueFrame::AssignDotBase {
            key,
            op,
            value,
            here,
        } => step_assign_dot_base(state, key, op, value, here, v),
        ValueFrame::AssignIndexBase {
            key,
            op,
            value,
            here,
        } => step_assign_index_base(state, key, op, value, here, v),
        ValueFrame::AssignIndexKey {
            base,
            op,
            value,
            here,
        } => step_assign_index_key(state, base, op, value, here, v),
        ValueFrame::PutMember {
            emits,
            id,
            base,
            name,
            strict,
        } => step_put_member(state, emits, id, base, name, strict, v),
        ValueFrame::ComputeMember {
            base,
            name,
            op,
            value,
            here,
        } => step_compute_member(state, base, name, op, value, here, v),
        ValueFrame::ComputePending {
            id,
            op,
            base,
            name,
            args,
            here,
        } => step_compute_pending(state, id, op, base, name, args, here, v),
        ValueFrame::MethodPending {
            id,
            base,
            args,
            here,
        } => step_method_pending(state, id, base, args, here, v),
        ValueFrame::ComputeMemberOperand {
            base,
            name,
            op,
            held,
            strict,
        } => step_compute_member_operand(state, base, name, op, held, strict, v),
        ValueFrame::UpdateDotBase {
            key,
            up,
            prefix,
            strict,
        } => step_update_dot_base(state, key, up, prefix, strict, v),
        ValueFrame::UpdateIndexBase {
            key,
            up,
            prefix,
            here,
        } => step_update_index_base(state, key, up, prefix, here, v),
        ValueFrame::UpdateIndexKey {
            base,
            up,
            prefix,
            strict,
        } => step_update_index_key(state, base, up, prefix, strict, v),
        ValueFrame::UpdateMember {
            noted,
            base,
            name,
            up,
            prefix,
            strict,
        } => step_update_member(state, noted, base, name, up, prefix, strict, v),
        ValueFrame::UpdateMemberPrimitive {
            noted,
            base,
            name,
            up,
            prefix,
            strict,
            held,
        } => step_update_member_primitive(state, noted, base, name, up, prefix, strict, held, v),
        ValueFrame::UpdateOperandPrimitive { id, up, held } => step_update_operand_primitive(
            state, id, up, held, v,
        ),
        ValueFrame::EmitGet {
            id,
            base,
            name,
            found,
        } => step_emit_get(state, id, base, name, found, v),
        ValueFrame::EmitBinary {
            id,
            op,
            left,
            right,
        } => step_emit_binary(state, id, op, left, right, v),
        ValueFrame::EmitUnary { id, op, operand } => step_emit_unary(state, id, op, operand, v),
        ValueFrame::EmitInvoke { id, callee } => step_emit_invoke(state, id, callee, v),
        ValueFrame::InstancePrototype {
            function,
            env,
            call,
        } => step_instance_prototype(state, function, env, call.into_inner(), v),
        ValueFrame::Constructed { object } => step_constructed(state, object, v),
    }
}
