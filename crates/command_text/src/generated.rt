//! A synthetic workload, generated from a number.

ghost use Rattle.std.specs.Prelude.{◌≡◌, ◌<◌, ◌≤◌, ◌^◌, IfOk, map, string_bytes};
ghost use Rattle.command_text.specs.Generated.{first_lines, generated_line, last_lines, next_number};

use std::alloc::{AllocError, Global};

/// The two lines before the generated ones: the storage is installed and opened.
pub fn first_lines() -> [&'static str; 2]
    ensures { map (λ line. line.now) result ≡ first_lines }
{
    [
        r#"0 install {"version":1,"keyValueStorages":[{"name":"g","redundancy":{"m":2,"n":3}}]}"#,
        "0 open-kvs g",
    ]
}

/// The three lines after the generated ones: the storage is synchronised, measured and closed.
pub fn last_lines() -> [&'static str; 3]
    ensures { map (λ line. line.now) result ≡ last_lines }
{
    ["0 sync g", "0 size g", "0 close g"]
}

/// The number after this one, in the sequence from which the lines are made: each is below 2^31.
pub fn next_number(x: u64) -> u64
    requires { x < 2 ^ 31 }
    ensures next { result ≡ next_number x }
    ensures bound { result < 2 ^ 31 }
{
    (x * 1_103_515_245 + 12_345) % 2_147_483_648
}

/// The text of line `i` of `n`, counted from 1, as the number `x` of the sequence makes it; without the line feed.
/// The one error is that memory ran out.
pub fn generated_line(alloc: Global, n: u32, x: u64, i: u32) -> Result<Vec<u8>, AllocError>
    requires first { 1 ≤ i }
    requires last { i ≤ n }
    requires number { x < 2 ^ 31 }
    ensures { IfOk result (λ line. line.items ≡ generated_line x i) }
{
    let text = generated_text(alloc, x, i)?;
    Ok(text.into_bytes())
}

/// The same line as a string, since that is what `format!` makes.
fn generated_text(alloc: Global, x: u64, i: u32) -> Result<String, AllocError>
    ensures { IfOk result (λ text. string_bytes text ≡ generated_line x i) }
{
    let key = x / 65_536 % 64;
    let place = i % 8;
    if place == 0 {
        return String::from_str(alloc, "0 sync g");
    }
    if place == 4 {
        return format!(in alloc; "0 get g k{key}");
    }
    if place == 6 {
        return format!(in alloc; "0 remove g k{key}");
    }
    if place == 7 {
        return format!(in alloc; "0 exists g k{key}");
    }
    format!(in alloc; "0 set g k{key} u64:{x}")
}
