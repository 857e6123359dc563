//! The refusals: their numbers and their texts.

ghost use Rattle.std.specs.Prelude.{◌≡◌, ◌++◌, ◌∷◌, [], OnOk, codes, decimal};
ghost use Rattle.std.specs.List.{concat};
ghost use Rattle.ov_model.specs.declared.refusal.Refusal.TheVariants as no;
ghost use Rattle.ov_model.specs.Replies.{kind_text as kind_text_of, refusal_number, refusal_text, so_far};

use crate::pieces::Piece::{self, Number, Text};
use crate::pieces::{write_number, write_pieces};
use ov_model::Refusal;
use ov_value::{Kind, Txt};
use std::alloc::AllocError;

/// The number that is printed with a refusal.
pub(crate) fn number_of(refusal: &Refusal) -> u64
    ensures { result ≡ refusal_number refusal.now }
{
    match refusal {
        Refusal::NoRun { .. } => 4,
        Refusal::JournalFull { .. } => 5,
        Refusal::NoCvd { .. } => 10,
        Refusal::CvdExists { .. } => 11,
        Refusal::NoVersion { .. } => 12,
        Refusal::RepeatedVersion { .. } => 13,
        Refusal::DuplicateKey { .. } => 14,
        Refusal::TooManyVersions { .. } => 15,
        Refusal::TooManyRecords { .. } => 16,
        Refusal::BadThreshold => 17,
        Refusal::Migrating { .. } => 18,
        Refusal::TooManyRows => 19,
        Refusal::TooManyCvds => 20,
        Refusal::NoThreshold { .. } => 21,
        Refusal::NoNumbers { .. } => 22,
        Refusal::FormatOne { .. } => 23,
        Refusal::BadHeader => 31,
        Refusal::Width { .. } => 32,
        Refusal::BadField { .. } => 33,
        Refusal::NotText { .. } => 34,
        Refusal::LongFile => 35,
        Refusal::LongRow { .. } => 36,
        Refusal::NullKey { .. } => 37,
        Refusal::BadByte { .. } => 40,
        Refusal::NotAQuery => 41,
        Refusal::UnknownColumn { .. } => 42,
        Refusal::TypeMismatch { .. } => 43,
        Refusal::NotGrouped { .. } => 44,
        Refusal::NeedsInt { .. } => 45,
        Refusal::TooManyJoined => 46,
        Refusal::UnknownCommand => 51,
        Refusal::Missing { .. } => 52,
        Refusal::UnexpectedWord { .. } => 53,
        Refusal::BadNumber => 54,
        Refusal::LongLine => 55,
        Refusal::BadKind { .. } => 56,
        Refusal::NotUtf8 => 57,
        Refusal::OpenQuote => 58,
        Refusal::NoColumns => 61,
        Refusal::TooManyColumns => 62,
        Refusal::BadName { .. } => 63,
        Refusal::RepeatedName { .. } => 64,
        Refusal::NoKey => 65,
        Refusal::UnknownKey { .. } => 66,
        Refusal::RepeatedKey { .. } => 67,
        Refusal::NoFile { .. } => 70,
        Refusal::Denied { .. } => 71,
        Refusal::NoUser { .. } => 72,
        Refusal::UserExists { .. } => 73,
        Refusal::NoTable { .. } => 74,
        Refusal::TableStaged { .. } => 75,
        Refusal::ForeignRegistry => 76,
        Refusal::TooManyListed => 77,
    }
}

/// Writes a refusal's text, without its number.
pub(crate) fn write_text(refusal: &Refusal, out: &mut Vec<u8>) -> Result<(), AllocError>
    ensures { OnOk result (out.new.items ≡ out.old.items ++ refusal_text refusal.now) }
{
    match refusal {
        Refusal::NoRun { pages, steps } => write_no_run(*pages, steps, out),
        Refusal::JournalFull { steps } => write_journal_full(steps, out),
        Refusal::NoCvd { cvd } => behind(b"no dataset ", cvd, out),
        Refusal::CvdExists { cvd } => before(cvd, b" exists", out),
        Refusal::NoVersion { vid } => behind_number(b"no version ", *vid, out),
        Refusal::RepeatedVersion { vid } => around(b"version ", *vid, b" is repeated", out),
        Refusal::DuplicateKey { row } => around(b"row ", *row, b" repeats a key", out),
        Refusal::TooManyVersions { cvd } => before(cvd, b" has 65535 versions", out),
        Refusal::TooManyRecords { cvd } => before(cvd, b" would pass 2147483648 records", out),
        Refusal::BadThreshold => text(b"threshold out of range", out),
        Refusal::Migrating { cvd } => before(cvd, b" is migrating", out),
        Refusal::TooManyRows => text(b"over 1000000 rows", out),
        Refusal::TooManyCvds => text(b"1024 datasets already", out),
        Refusal::NoThreshold { budget, least } => write_pieces(
            &[
                Text(b"no threshold stores at most "),
                Number(*budget),
                Text(b"; the least is "),
                Number(*least),
            ],
            out,
        ),
        Refusal::NoNumbers { cvd } => behind(b"no numbers left for ", cvd, out),
        Refusal::FormatOne { row } => around(b"row ", *row, b" has NULL in a format 1 store", out),
        Refusal::BadHeader => text(b"the header differs from the schema", out),
        Refusal::Width {
            row,
            found,
            columns,
        } => write_pieces(
            &[
                Text(b"row "),
                Number(*row),
                Text(b" has "),
                Number(*found),
                Text(b" fields, not "),
                Number(*columns),
            ],
            out,
        ),
        Refusal::BadField { row, column, kind } => write_pieces(
            &[
                Text(b"row "),
                Number(*row),
                Text(b", column "),
                Text(column.as_bytes()),
                Text(b": not "),
                Text(kind_text(*kind)),
            ],
            out,
        ),
        Refusal::NotText { row } => around(b"row ", *row, b" is not UTF-8", out),
        Refusal::LongFile => text(b"file over 67108864 bytes", out),
        Refusal::LongRow { row } => around(b"row ", *row, b" is over 65536 bytes", out),
        Refusal::NullKey { row, column } => write_pieces(
            &[
                Text(b"row "),
                Number(*row),
                Text(b", column "),
                Text(column.as_bytes()),
                Text(b": the key is NULL"),
            ],
            out,
        ),
        Refusal::BadByte { at } => around(b"byte ", *at, b" begins no token", out),
        Refusal::NotAQuery => text(b"not a query", out),
        Refusal::UnknownColumn { name } => behind(b"no column ", name, out),
        Refusal::TypeMismatch { nth, left, right } => write_pieces(
            &[
                Text(b"comparison "),
                Number(*nth),
                Text(b" compares "),
                Text(kind_text(*left)),
                Text(b" with "),
                Text(kind_text(*right)),
            ],
            out,
        ),
        Refusal::NotGrouped { name } => before(name, b" is not grouped", out),
        Refusal::NeedsInt { name } => before(name, b" is not int", out),
        Refusal::TooManyJoined => text(b"over 1000000 joined rows", out),
        Refusal::UnknownCommand => text(b"unknown command", out),
        Refusal::Missing { what } => behind(b"missing ", what, out),
        Refusal::UnexpectedWord { nth } => behind_number(b"unexpected word ", *nth, out),
        Refusal::BadNumber => text(b"bad number", out),
        Refusal::LongLine => text(b"line over 65536 bytes", out),
        Refusal::BadKind { column } => around(b"column ", *column, b" has a bad kind", out),
        Refusal::NotUtf8 => text(b"line is not UTF-8", out),
        Refusal::OpenQuote => text(b"a quote is not closed", out),
        Refusal::NoColumns => text(b"no columns", out),
        Refusal::TooManyColumns => text(b"over 64 columns", out),
        Refusal::BadName { name } => behind(b"bad name ", name, out),
        Refusal::RepeatedName { name } => named(b"column ", name, b" is repeated", out),
        Refusal::NoKey => text(b"no key", out),
        Refusal::UnknownKey { name } => behind(b"no key column ", name, out),
        Refusal::RepeatedKey { name } => named(b"key column ", name, b" is repeated", out),
        Refusal::NoFile { name } => behind(b"no file ", name, out),
        Refusal::Denied { rule } => behind_number(b"denied by rule ", *rule, out),
        Refusal::NoUser { name } => behind(b"no user ", name, out),
        Refusal::UserExists { name } => named(b"user ", name, b" exists", out),
        Refusal::NoTable { table } => behind(b"no table ", table, out),
        Refusal::TableStaged { table } => named(b"table ", table, b" is staged", out),
        Refusal::ForeignRegistry => text(b"the registry is foreign", out),
        Refusal::TooManyListed => text(b"over 1000 versions", out),
    }
}

fn write_no_run(pages: u64, steps: &Option<(u32, u64)>, out: &mut Vec<u8>) -> Result<(), AllocError>
    ensures { OnOk result (out.new.items ≡ out.old.items ++ refusal_text (no.NoRun pages steps.now)) }
{
    write_pieces(
        &[Text(b"no free run of "), Number(pages), Text(b" pages")],
        out,
    )?;
    write_so_far(steps, out)?;
    Ok(())
}

fn write_journal_full(steps: &Option<(u32, u64)>, out: &mut Vec<u8>) -> Result<(), AllocError>
    ensures { OnOk result (out.new.items ≡ out.old.items ++ refusal_text (no.JournalFull steps.now)) }
{
    out.extend_from_slice(b"the journal is full")?;
    write_so_far(steps, out)?;
    Ok(())
}

fn text(words: &[u8], out: &mut Vec<u8>) -> Result<(), AllocError>
    ensures { OnOk result (out.new.items ≡ out.old.items ++ words.now) }
{
    out.extend_from_slice(words)
}

fn behind(words: &[u8], name: &Txt, out: &mut Vec<u8>) -> Result<(), AllocError>
    ensures { OnOk result (out.new.items ≡ out.old.items ++ (words.now ++ name.now)) }
{
    out.extend_from_slice(words)?;
    out.extend_from_slice(name.as_bytes())
}

fn before(name: &Txt, words: &[u8], out: &mut Vec<u8>) -> Result<(), AllocError>
    ensures { OnOk result (out.new.items ≡ out.old.items ++ (name.now ++ words.now)) }
{
    out.extend_from_slice(name.as_bytes())?;
    out.extend_from_slice(words)
}

fn behind_number(words: &[u8], n: u64, out: &mut Vec<u8>) -> Result<(), AllocError>
    ensures { OnOk result (out.new.items ≡ out.old.items ++ (words.now ++ decimal n)) }
{
    out.extend_from_slice(words)?;
    write_number(n, out)
}

fn around<'a>(words: &'a [u8], n: u64, after: &'a [u8], out: &mut Vec<u8>) -> Result<(), AllocError>
    ensures { OnOk result (out.new.items ≡ out.old.items ++ concat (words.now ∷ decimal n ∷ after.now ∷ [])) }
{
    write_pieces(&[Text(words), Number(n), Text(after)], out)
}

fn named<'a>(
    words: &'a [u8],
    name: &'a Txt,
    after: &'a [u8],
    out: &mut Vec<u8>,
) -> Result<(), AllocError>
    ensures { OnOk result (out.new.items ≡ out.old.items ++ concat (words.now ∷ name.now ∷ after.now ∷ [])) }
{
    write_pieces(&[Text(words), Text(name.as_bytes()), Text(after)], out)
}

fn kind_text(kind: Kind) -> &'static [u8]
    ensures { result.now ≡ kind_text_of kind }
{
    match kind {
        Kind::Int => b"int",
        Kind::Text => b"text",
        Kind::Flag => b"flag",
    }
}

fn write_so_far(steps: &Option<(u32, u64)>, out: &mut Vec<u8>) -> Result<(), AllocError>
    ensures { OnOk result (out.new.items ≡ out.old.items ++ so_far steps.now) }
{
    match steps {
        None => Ok(()),
        Some((taken, left)) => write_pieces(
            &[
                Text(b", steps "),
                Number(*taken as u64),
                Text(b" left "),
                Number(*left),
            ],
            out,
        ),
    }
}
