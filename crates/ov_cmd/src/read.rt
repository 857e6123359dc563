//! What a word gives.

ghost use Rattle.std.specs.Prelude.{◌≡◌, IfOk, IfErr, Ok, []};
ghost use Rattle.ov_model.specs.declared.given.Given.TheVariants as gives;
ghost use Rattle.ov_model.specs.declared.given.Reading.TheVariants as reads;
ghost use Rattle.ov_model.specs.declared.refusal.Refusal.TheVariants as no;
ghost use Rattle.ov_model.specs.Values.{read as read_as, number_in as number_between, number_with as number_beside, last_number as last_number_of, or_refused};
ghost use Rattle.ov_cmd.specs.Errors.{Refuses};

use crate::columns::columns_of;
use crate::line_err::LineErr;
use crate::numbers::{number_of, ratio_of, vids_of};
use crate::split::{comma_items, texts_of};
use ov_model::{Given, Reading};
use ov_value::Txt;
use std::alloc::Global;

/// What word `nth` gives, behind the values of the words in order before it.
pub(crate) fn read(
    alloc: Global,
    reading: Reading,
    nth: u64,
    before: &[Given],
    word: &str,
) -> Result<Given, LineErr>
    ensures ok { IfOk result (λ given. read_as reading nth before.now word.now ≡ Ok given) }
    ensures err { IfErr result (Refuses (read_as reading nth before.now word.now)) }
{
    match reading {
        Reading::AnyText => read_text(alloc, word),
        Reading::FileName => read_file_name(alloc, nth, word),
        Reading::Message => read_message(alloc, nth, word),
        Reading::NumberFrom { least, most } => {
            number_or_refused(number_in(least, most, number_of(word)))
        }
        Reading::CountTo { most } => count_to(most, number_of(word)),
        Reading::NumberWith { each, most } => {
            number_with(last_number(before), each, most, number_of(word))
        }
        Reading::ListOfVids => read_vids(alloc, word),
        Reading::TwoNumbers => read_ratio(alloc, word),
        Reading::ListOfNames => read_names(alloc, word),
        Reading::SchemaItems => read_columns(alloc, word),
        Reading::StagedTable => read_table(alloc, nth, word),
    }
}

fn read_text(alloc: Global, word: &str) -> Result<Given, LineErr>
    ensures ok { IfOk result (λ given. given ≡ gives.Text word.now) }
    ensures err { IfErr result (λ e. e ≡ LineErr.Memory) }
{
    Ok(Given::Text(Txt::new(alloc, word)?))
}

fn read_file_name(alloc: Global, nth: u64, word: &str) -> Result<Given, LineErr>
    ensures ok { IfOk result (λ given. read_as reads.FileName nth [] word.now ≡ Ok given) }
    ensures err { IfErr result (Refuses (read_as reads.FileName nth [] word.now)) }
{
    if word.is_empty() || word.len() > 255 {
        return Err(LineErr::UnexpectedWord { nth });
    }
    read_text(alloc, word)
}

fn read_message(alloc: Global, nth: u64, word: &str) -> Result<Given, LineErr>
    ensures ok { IfOk result (λ given. read_as reads.Message nth [] word.now ≡ Ok given) }
    ensures err { IfErr result (Refuses (read_as reads.Message nth [] word.now)) }
{
    if word.len() > 1024 {
        return Err(LineErr::UnexpectedWord { nth });
    }
    read_text(alloc, word)
}

fn last_number(before: &[Given]) -> u64
    ensures { result ≡ last_number_of before.now }
{
    match before.last() {
        Some(Given::Number(n)) => *n,
        _ => 0,
    }
}

fn number_in(least: u64, most: u64, number: Option<u64>) -> Option<u64>
    ensures { result ≡ number_between least most number }
{
    match number {
        Some(n) if least <= n && n <= most => Some(n),
        _ => None,
    }
}

fn count_to(most: u32, number: Option<u64>) -> Result<Given, LineErr>
    ensures ok { IfOk result (λ given. or_refused no.BadNumber gives.Count (number_between 0 most number) ≡ Ok given) }
    ensures err { IfErr result (Refuses (or_refused no.BadNumber gives.Count (number_between 0 most number))) }
{
    match number {
        Some(n) if n <= most as u64 => Ok(Given::Count(n as u32)),
        _ => Err(LineErr::BadNumber),
    }
}

fn number_with(last: u64, each: u32, most: u32, number: Option<u64>) -> Result<Given, LineErr>
    ensures ok { IfOk result (λ given. or_refused no.BadNumber (λ n. gives.Both last n) (number_beside last each most number) ≡ Ok given) }
    ensures err { IfErr result (Refuses (or_refused no.BadNumber (λ n. gives.Both last n) (number_beside last each most number))) }
{
    let most = most as u64;
    match number_in(1, each as u64, number) {
        Some(n) if last <= most && n <= most - last => Ok(Given::Both(last as u32, n as u32)),
        _ => Err(LineErr::BadNumber),
    }
}

fn number_or_refused(number: Option<u64>) -> Result<Given, LineErr>
    ensures ok { IfOk result (λ given. or_refused no.BadNumber gives.Number number ≡ Ok given) }
    ensures err { IfErr result (Refuses (or_refused no.BadNumber gives.Number number)) }
{
    match number {
        Some(n) => Ok(Given::Number(n)),
        None => Err(LineErr::BadNumber),
    }
}

fn read_vids(alloc: Global, word: &str) -> Result<Given, LineErr>
    ensures ok { IfOk result (λ given. read_as reads.ListOfVids 0 [] word.now ≡ Ok given) }
    ensures err { IfErr result (Refuses (read_as reads.ListOfVids 0 [] word.now)) }
{
    match vids_of(alloc, word)? {
        Some(vids) => Ok(Given::Vids(vids)),
        None => Err(LineErr::BadNumber),
    }
}

fn read_ratio(alloc: Global, word: &str) -> Result<Given, LineErr>
    ensures ok { IfOk result (λ given. read_as reads.TwoNumbers 0 [] word.now ≡ Ok given) }
    ensures err { IfErr result (Refuses (read_as reads.TwoNumbers 0 [] word.now)) }
{
    match ratio_of(alloc, word)? {
        Some((over, under)) => Ok(Given::Ratio(over, under)),
        None => Err(LineErr::BadNumber),
    }
}

fn read_names(alloc: Global, word: &str) -> Result<Given, LineErr>
    ensures ok { IfOk result (λ given. read_as reads.ListOfNames 0 [] word.now ≡ Ok given) }
    ensures err { IfErr result (λ e. e ≡ LineErr.Memory) }
{
    let items = comma_items(alloc, word)?;
    let names = texts_of(alloc, items.as_slice())?;
    Ok(Given::Names(names))
}

fn read_columns(alloc: Global, word: &str) -> Result<Given, LineErr>
    ensures ok { IfOk result (λ given. read_as reads.SchemaItems 0 [] word.now ≡ Ok given) }
    ensures err { IfErr result (Refuses (read_as reads.SchemaItems 0 [] word.now)) }
{
    match columns_of(alloc, word) {
        Ok(columns) => Ok(Given::Columns(columns)),
        Err(e) => Err(e),
    }
}

fn read_table(alloc: Global, nth: u64, word: &str) -> Result<Given, LineErr>
    ensures ok { IfOk result (λ given. read_as reads.StagedTable nth [] word.now ≡ Ok given) }
    ensures err { IfErr result (Refuses (read_as reads.StagedTable nth [] word.now)) }
{
    let Some((user, table)) = word.split_once('.') else {
        return Err(LineErr::UnexpectedWord { nth });
    };
    let user = Txt::new(alloc, user)?;
    let table = Txt::new(alloc, table)?;
    Ok(Given::Table(user, table))
}
