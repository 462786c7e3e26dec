//! Numbers in digits.

ghost use Rattle.std.specs.Prelude.{◌≡◌, ◌++◌, OnOk, decimal};
ghost use Rattle.run_words.specs.Digits.{count_text, digits_text, grouped_text};

use itoa::Buffer;
use std::alloc::AllocError;

/// Appends a number in digits alone.
pub fn push_number(out: &mut Vec<u8>, number: u64) -> Result<(), AllocError>
    ensures { OnOk result (out.new.items ≡ out.old.items ++ decimal number) }
{
    let mut buffer = Buffer::new();
    out.extend_from_slice(buffer.format(number).as_bytes())
}

/// Appends a number with commas.
pub fn push_count(out: &mut Vec<u8>, number: u64) -> Result<(), AllocError>
    ensures { OnOk result (out.new.items ≡ out.old.items ++ count_text number) }
{
    if number < 1_000 {
        return push_number(out, number);
    }
    if number < 1_000_000 {
        push_number(out, number / 1_000)?;
        return push_group(out, number % 1_000);
    }
    push_number(out, number / 1_000_000)?;
    push_group(out, number / 1_000 % 1_000)?;
    push_group(out, number % 1_000)
}

/// Appends a comma, and a number below 1,000 in three digits.
fn push_group(out: &mut Vec<u8>, number: u64) -> Result<(), AllocError>
    ensures { OnOk result (out.new.items ≡ out.old.items ++ grouped_text number) }
{
    out.extend_from_slice(b",")?;
    push_number(out, number / 100)?;
    push_digits(out, number % 100)
}

/// Appends a number below 100 in two digits.
pub fn push_digits(out: &mut Vec<u8>, number: u64) -> Result<(), AllocError>
    ensures { OnOk result (out.new.items ≡ out.old.items ++ digits_text number) }
{
    push_number(out, number / 10)?;
    push_number(out, number % 10)
}
