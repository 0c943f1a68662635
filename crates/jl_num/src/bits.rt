ghost use Rattle.std.specs.Prelude.{◌≡◌, ◌<◌, ◌^◌, ◌%◌, Some, pos};
ghost use Rattle.jl_num.specs.Bits.{uint32_of, uint16_of, int32_of, signed_of, distance_of, left_shift_of};
ghost use Rattle.jl_num.specs.Bits.{right_shift_of, unsigned_right_shift_of, and_of, or_of, xor_of, complement_of};

use crate::num::Num;

/// ToInt32 (9.5): the integer of 32 bits with a sign that differs from the number by a multiple of 2^32; 0 for NaN.
pub fn to_int32(a: Num) -> i32
    ensures { result ≡ int32_of a }
{
    to_uint32(a).cast_signed()
}

/// ToUint32 (9.6): the number modulo 2^32; 0 for NaN.
pub fn to_uint32(a: Num) -> u32
    ensures { result ≡ uint32_of a }
{
    match a.value() {
        Some(n) => n.rem_euclid(0x1_0000_0000) as u32,
        None => 0,
    }
}

/// ToUint16 (9.7): the number modulo 2^16; 0 for NaN.
pub fn to_uint16(a: Num) -> u16
    ensures { result ≡ uint16_of a }
{
    match a.value() {
        Some(n) => n.rem_euclid(0x1_0000) as u16,
        None => 0,
    }
}

/// `a << b` (11.7.1).
pub fn shl(a: Num, b: Num) -> Num
    ensures { result ≡ left_shift_of a b }
{
    signed_number(to_uint32(a) << distance(b))
}

/// `a >> b` (11.7.2), which keeps the sign.
pub fn sar(a: Num, b: Num) -> Num
    ensures { result ≡ right_shift_of a b }
{
    Num::within(i64::from(to_int32(a) >> distance(b)))
}

/// `a >>> b` (11.7.3), which is not below 0.
pub fn shr(a: Num, b: Num) -> Num
    ensures { result ≡ unsigned_right_shift_of a b }
{
    Num::within(i64::from(to_uint32(a) >> distance(b)))
}

/// `a & b` (11.10).
pub fn and(a: Num, b: Num) -> Num
    ensures { result ≡ and_of a b }
{
    signed_number(to_uint32(a) & to_uint32(b))
}

/// `a | b` (11.10).
pub fn or(a: Num, b: Num) -> Num
    ensures { result ≡ or_of a b }
{
    signed_number(to_uint32(a) | to_uint32(b))
}

/// `a ^ b` (11.10).
pub fn xor(a: Num, b: Num) -> Num
    ensures { result ≡ xor_of a b }
{
    signed_number(to_uint32(a) ^ to_uint32(b))
}

/// `~a` (11.4.8).
pub fn not(a: Num) -> Num
    ensures { result ≡ complement_of a }
{
    signed_number(!to_uint32(a))
}

// How many places a shift by b moves bits.
fn distance(b: Num) -> u32
    ensures is { result ≡ distance_of b }
    ensures small { result < 32 }
{
    to_uint32(b) % 32
}

// The number whose 32 bits these are.
fn signed_number(n: u32) -> Num
    ensures { result ≡ Some (signed_of n) }
{
    Num::within(i64::from(n.cast_signed()))
}
