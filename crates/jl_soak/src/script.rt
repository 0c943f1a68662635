ghost use Rattle.std.specs.Prelude.{◌≡◌, ◌≤◌, IfOk, length};
ghost use Rattle.std.specs.String.{string_bytes};
ghost use Rattle.jl_soak.specs.Script.{call_line, function_line, lines_of, script_of};

use std::alloc::{AllocError, Global};

/// The line that declares the function of a number: sums, properties and a remainder.
fn function_line(alloc: Global, number: u32) -> Result<String, AllocError>
    requires { number ≤ 8000 }
    ensures { IfOk result (λ line. string_bytes line ≡ function_line number) }
{
    let modulus = 7 + number % 5;
    format!(in alloc;
        "function f{number}(a, b) {{ var o = {{ p: a, q: b }}; o.p += {number}; return o.p % {modulus} - o.q; }}\n"
    )
}

/// The line that adds a call of the function of a number to the sum.
fn call_line(alloc: Global, number: u32) -> Result<String, AllocError>
    requires { number ≤ 8000 }
    ensures { IfOk result (λ line. string_bytes line ≡ call_line number) }
{
    let second = number * number % 11;
    format!(in alloc; "total += f{number}({number}, {second});\n")
}

/// The two lines of a number.
fn lines_of(alloc: Global, number: u32) -> Result<String, AllocError>
    requires { number ≤ 8000 }
    ensures { IfOk result (λ lines. string_bytes lines ≡ lines_of number) }
{
    let function = function_line(alloc, number)?;
    let call = call_line(alloc, number)?;
    format!(in alloc; "{function}{call}")
}

/// The script of so many functions, each of which is called once: it adds up what they give, and prints the sum.
///
/// It is the same text each time, in UTF-8, and at most a mebibyte.
///
/// # Errors
///
/// Where memory runs out.
pub fn script_from(alloc: Global, number: u32) -> Result<Vec<u8>, AllocError>
    requires { number ≤ 8000 }
    ensures text { IfOk result (λ text. text.items ≡ script_of number) }
    ensures size { IfOk result (λ text. length text.items ≤ 1048576) }
{
    let mut text = Vec::from_slice(alloc, b"var total = 0;\n")?;
    for before in 0..number {
        let lines = lines_of(alloc, before)?;
        text.extend_from_slice(lines.as_bytes())?;
    }
    text.extend_from_slice(b"print(total);\n")?;
    Ok(text)
}
