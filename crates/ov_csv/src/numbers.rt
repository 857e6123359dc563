//! The digits of a number.

ghost use Rattle.std.specs.Prelude.{◌≡◌, ◌++◌, ◌∷◌, [], ◌<◌, ◌≤◌, ◌+◌, ◌/◌, ◌%◌, IfOk, OnOk, vec_len, vec_capacity};
ghost use Rattle.std.specs.Fmt.{decimal, signed_decimal};
ghost use Rattle.csv.specs.Writing.{default_writer, next_sep};

use crate::field_line::{push_separator, put_separator};
use crate::room::{make_room, take_text};
use itoa::Buffer;
use std::alloc::AllocError;

/// The two digits of each number below 100, so that two come at a time.
static PAIRS: [u8; 200] =
    *b"00010203040506070809101112131415161718192021222324252627282930313233343536373839404142434445464748495051525354555657585960616263646566676869707172737475767778798081828384858687888990919293949596979899";

/// Adds what stands before the field at this place of a line and the digits of a number, behind a sign where it is below 0.
/// For numbers of up to eight digits, as most are, room is made once, and then each digit is put behind the other.
#[inline(always)]
pub(crate) fn push_number(text: &mut Vec<u8>, place: usize, number: i64) -> Result<(), AllocError>
    ensures { OnOk result (text.new.items ≡ text.old.items ++ (next_sep default_writer place ++ signed_decimal number)) }
{
    if 0 <= number && number < 100_000_000 {
        push_short(text, place, number as u32)
    } else {
        push_long(text, place, number)
    }
}

#[inline(always)]
fn push_long(text: &mut Vec<u8>, place: usize, number: i64) -> Result<(), AllocError>
    ensures { OnOk result (text.new.items ≡ text.old.items ++ (next_sep default_writer place ++ signed_decimal number)) }
{
    *text = with_long(take_text(text), place, number)?;
    Ok(())
}

#[inline(never)]
fn with_long(text: Vec<u8>, place: usize, number: i64) -> Result<Vec<u8>, AllocError>
    ensures { IfOk result (λ made. made.items ≡ text.items ++ (next_sep default_writer place ++ signed_decimal number)) }
{
    let mut made = text;
    push_separator(&mut made, place)?;
    made.extend_from_slice(Buffer::new().format(number).as_bytes())?;
    Ok(made)
}

#[inline(always)]
fn push_short(text: &mut Vec<u8>, place: usize, number: u32) -> Result<(), AllocError>
    requires { number < 100000000 }
    ensures { OnOk result (text.new.items ≡ text.old.items ++ (next_sep default_writer place ++ decimal number)) }
{
    make_room(text, 9)?;
    put_separator(text, place);
    put_short(text, number);
    Ok(())
}

// Up to eight digits.
#[inline(always)]
fn put_short(text: &mut Vec<u8>, number: u32)
    requires small { number < 100000000 }
    requires room { vec_len text.old + 8 ≤ vec_capacity text.old }
    ensures { text.new.items ≡ text.old.items ++ decimal number }
{
    if number < 10_000 {
        put_few(text, number);
    } else {
        put_few(text, number / 10_000);
        put_four(text, number % 10_000);
    }
}

// Up to four digits.
#[inline(always)]
fn put_few(text: &mut Vec<u8>, number: u32)
    requires small { number < 10000 }
    requires room { vec_len text.old + 4 ≤ vec_capacity text.old }
    ensures items { text.new.items ≡ text.old.items ++ decimal number }
    ensures len { vec_len text.new ≤ vec_len text.old + 4 }
    ensures capacity { vec_capacity text.new ≡ vec_capacity text.old }
{
    if number < 100 {
        put_front(text, number);
    } else {
        put_front(text, number / 100);
        put_pair(text, number % 100);
    }
}

// One or two digits.
#[inline(always)]
fn put_front(text: &mut Vec<u8>, number: u32)
    requires small { number < 100 }
    requires room { vec_len text.old + 2 ≤ vec_capacity text.old }
    ensures items { text.new.items ≡ text.old.items ++ decimal number }
    ensures len { vec_len text.new ≤ vec_len text.old + 2 }
    ensures capacity { vec_capacity text.new ≡ vec_capacity text.old }
{
    if number < 10 {
        text.push_reserved(48 + number as u8);
    } else {
        put_pair(text, number);
    }
}

// Four digits, noughts in front too.
#[inline(always)]
fn put_four(text: &mut Vec<u8>, number: u32)
    requires small { number < 10000 }
    requires room { vec_len text.old + 4 ≤ vec_capacity text.old }
    ensures { text.new.items ≡ text.old.items ++ (48 + number / 100 / 10) ∷ (48 + number / 100 % 10) ∷ (48 + number % 100 / 10) ∷ (48 + number % 100 % 10) ∷ [] }
{
    put_pair(text, number / 100);
    put_pair(text, number % 100);
}

// Two digits, a nought in front too.
#[inline(always)]
fn put_pair(text: &mut Vec<u8>, pair: u32)
    requires small { pair < 100 }
    requires room { vec_len text.old + 2 ≤ vec_capacity text.old }
    ensures items { text.new.items ≡ text.old.items ++ (48 + pair / 10) ∷ (48 + pair % 10) ∷ [] }
    ensures len { vec_len text.new ≤ vec_len text.old + 2 }
    ensures capacity { vec_capacity text.new ≡ vec_capacity text.old }
{
    text.push_reserved(tens(pair));
    text.push_reserved(ones(pair));
}

// The first of two digits.
#[inline(always)]
fn tens(pair: u32) -> u8
    requires { pair < 100 }
    ensures { result ≡ 48 + pair / 10 }
{
    PAIRS[2 * pair as usize]
}

// The second of two digits.
#[inline(always)]
fn ones(pair: u32) -> u8
    requires { pair < 100 }
    ensures { result ≡ 48 + pair % 10 }
{
    PAIRS[2 * pair as usize + 1]
}
