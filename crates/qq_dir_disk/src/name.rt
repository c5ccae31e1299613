ghost use Rattle.std.specs.Prelude.{◌≡◌, ◌≢◌, ◌<◌, ◌^◌, ◌+◌, ◌++◌, ◌∷◌, [], Some, IfOk, IfSome, IfNone, IsOkUnless, OnOk, IfErr};
ghost use Rattle.qq_base.specs.declared.memory.Memory.TheVariants.{Want};
ghost use Rattle.qq_disk.specs.declared.name.FileName.{FileName};
ghost use Rattle.qq_dir_disk.specs.Name.{digits, ending, file_text, add_digit, add_digits, kind_named, file_named};

use qq_base::Memory;
use qq_disk::{FileKind, FileName};
use std::alloc::Global;

// As many decimal digits as a number of 64 bits has.
const WIDTH: u8 = 20;

fn ending(kind: FileKind) -> &'static str
    ensures { result.now ≡ ending kind }
{
    match kind {
        FileKind::Log => ".log",
        FileKind::Segment => ".seg",
        FileKind::Snapshot => ".snap",
    }
}

fn digit_text(digit: u64) -> &'static str
    requires { digit < 10 }
    ensures { result.now ≡ (48 + digit) ∷ [] }
{
    match digit {
        0 => "0",
        1 => "1",
        2 => "2",
        3 => "3",
        4 => "4",
        5 => "5",
        6 => "6",
        7 => "7",
        8 => "8",
        _ => "9",
    }
}

#[tactic(auto, unfolding(crate::specs::Name::digits))]
fn push_digits(text: &mut String, width: u8, number: u64) -> Result<(), Memory>
    ensures ok { OnOk result (text.new.bytes.items ≡ text.old.bytes.items ++ digits width number) }
    ensures want { IsOkUnless result Want }
{
    if width == 0 {
        return Ok(());
    }
    push_digits(text, width - 1, number / 10)?;
    text.push_str(digit_text(number % 10))?;
    Ok(())
}

/// The name of a file in a folder: its number in 20 decimal digits, and `.log`, `.seg` or `.snap`.
pub fn file_text(alloc: Global, file: FileName) -> Result<String, Memory>
    ensures ok { IfOk result (λ text. text.bytes.items ≡ file_text file) }
    ensures want { IsOkUnless result Want }
{
    let mut text = String::new(alloc);
    push_digits(&mut text, WIDTH, file.number)?;
    text.push_str(ending(file.kind))?;
    Ok(text)
}

fn add_digit(number: u64, byte: u8) -> Option<u64>
    ensures { result ≡ add_digit number byte }
{
    if !byte.is_ascii_digit() {
        return None;
    }
    number.checked_mul(10)?.checked_add(u64::from(byte - b'0'))
}

// The number that digits spell, None where one is no digit or the number has more than 64 bits.
fn number_of(text: &[u8]) -> Option<u64>
    ensures { result ≡ add_digits (Some 0) text.now }
{
    let mut number = 0;
    for byte in text {
        number = add_digit(number, *byte)?;
    }
    Some(number)
}

fn kind_of(text: &[u8]) -> Option<FileKind>
    ensures { result ≡ kind_named text.now }
{
    if text == b".log".as_slice() {
        return Some(FileKind::Log);
    }
    if text == b".seg".as_slice() {
        return Some(FileKind::Segment);
    }
    if text == b".snap".as_slice() {
        return Some(FileKind::Snapshot);
    }
    None
}

fn named(text: &[u8]) -> Option<FileName>
    ensures { result ≡ file_named text.now }
{
    let (front, rest) = text.split_at_checked(WIDTH as usize)?;
    Some(FileName {
        kind: kind_of(rest)?,
        number: number_of(front)?,
    })
}

/// The file that has this name in a folder, None where no file has.
pub fn file_name(text: &str) -> Option<FileName>
    ensures ok { IfSome result (λ file. file_text file ≡ text.now) }
    ensures none { IfNone result ((file : FileName) →
        file.number < 2 ^ 64 → file_text file ≢ text.now) }
{
    named(text.as_bytes())
}
