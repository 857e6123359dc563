//! The command that the values of a line make.

ghost use Rattle.std.specs.Prelude.{◌≡◌, ◌≢◌, true, false, IfOk, IfErr, Ok, Some, codes};
ghost use Rattle.std.specs.Option.{option_copied, option_map};
ghost use Rattle.ov_model.specs.Values.{number_from as number_from_of};
ghost use Rattle.ov_model.specs.Forms.{word_of, choice as choice_of, text_in, vids_in, names_in, columns_in, count_in as count_in_of, before_in as before_in_of, own_in as own_in_of, over_in as over_in_of, under_in as under_in_of, user_in, table_in, make_init as init_of, make_checkout as checkout_of, make_commit as commit_of, make_commit_staged as commit_staged_of, make_optimize as optimize_of, make_advise as advise_of, make_generate as generate_of, some_columns as some_columns_of, or_schema_refusal};
ghost use Rattle.ov_value.specs.Making.{schema_of as schema_made};
ghost use Rattle.ov_value.specs.Naming.{is_name as is_name_of};
ghost use Rattle.ov_cmd.specs.Errors.{Refuses};
ghost use Rattle.ov_cmd.specs.Gathered.{values_of};
ghost use Rattle.ov_cmd.specs.declared.form.Maker.TheVariants as makes;
ghost use Rattle.ov_cmd.specs.Table.{make_of};

use crate::form::Maker;
use crate::line_err::LineErr;
use crate::values::{Values, option};
use ov_model::{Command, Given, Seq};
use ov_value::{Column, Schema, Txt, is_name};
use std::alloc::{AllocError, Global};

fn word(values: &Values, place: usize) -> Option<&Given>
    ensures { option_copied result ≡ word_of (values_of values.now) place }
{
    values.words.get(place)
}

fn copy_text(alloc: Global, given: Option<&Given>) -> Result<Txt, AllocError>
    ensures { IfOk result (λ text. text ≡ text_in (option_copied given.entry)) }
{
    match given {
        Some(Given::Text(text)) => text.copy(alloc),
        _ => Txt::new(alloc, ""),
    }
}

fn copy_vids(alloc: Global, given: Option<&Given>) -> Result<Seq<u64>, AllocError>
    ensures { IfOk result (λ vids. vids ≡ vids_in (option_copied given.entry)) }
{
    match given {
        Some(Given::Vids(vids)) => Ok(Seq::from_vec(Vec::from_slice(alloc, vids.as_slice())?)),
        _ => Ok(Seq::from_vec(Vec::new(alloc))),
    }
}

fn copies_of_columns(alloc: Global, columns: &[Column]) -> Result<Vec<Column>, AllocError>
    ensures { IfOk result (λ copies. copies.items ≡ columns.now) }
{
    let mut copies = Vec::with_capacity(alloc, columns.len())?;
    for column in columns {
        copies.push(column.copy(alloc)?)?;
    }
    Ok(copies)
}

fn copy_columns(alloc: Global, given: Option<&Given>) -> Result<Vec<Column>, AllocError>
    ensures { IfOk result (λ columns. columns.items ≡ columns_in (option_copied given.entry)) }
{
    match given {
        Some(Given::Columns(columns)) => copies_of_columns(alloc, columns.as_slice()),
        _ => Ok(Vec::new(alloc)),
    }
}

fn copies_of_names(alloc: Global, names: &[Txt]) -> Result<Vec<Txt>, AllocError>
    ensures { IfOk result (λ copies. copies.items ≡ names.now) }
{
    let mut copies = Vec::with_capacity(alloc, names.len())?;
    for name in names {
        copies.push(name.copy(alloc)?)?;
    }
    Ok(copies)
}

fn copy_names(alloc: Global, given: Option<&Given>) -> Result<Vec<Txt>, AllocError>
    ensures { IfOk result (λ names. names.items ≡ names_in (option_copied given.entry)) }
{
    match given {
        Some(Given::Names(names)) => copies_of_names(alloc, names.as_slice()),
        _ => Ok(Vec::new(alloc)),
    }
}

fn copy_user(alloc: Global, given: Option<&Given>) -> Result<Txt, AllocError>
    ensures { IfOk result (λ user. user ≡ user_in (option_copied given.entry)) }
{
    match given {
        Some(Given::Table(user, _)) => user.copy(alloc),
        _ => Txt::new(alloc, ""),
    }
}

fn copy_table(alloc: Global, given: Option<&Given>) -> Result<Txt, AllocError>
    ensures { IfOk result (λ table. table ≡ table_in (option_copied given.entry)) }
{
    match given {
        Some(Given::Table(_, table)) => table.copy(alloc),
        _ => Txt::new(alloc, ""),
    }
}

fn number_from(given: Option<&Given>) -> u64
    ensures { result ≡ number_from_of (option_copied given.entry) }
{
    match given {
        Some(Given::Number(n)) => *n,
        _ => 0,
    }
}

fn count_in(given: Option<&Given>) -> u32
    ensures { result ≡ count_in_of (option_copied given.entry) }
{
    match given {
        Some(Given::Count(n)) => *n,
        _ => 0,
    }
}

fn before_in(given: Option<&Given>) -> u32
    ensures { result ≡ before_in_of (option_copied given.entry) }
{
    match given {
        Some(Given::Both(before, _)) => *before,
        _ => 0,
    }
}

fn own_in(given: Option<&Given>) -> u32
    ensures { result ≡ own_in_of (option_copied given.entry) }
{
    match given {
        Some(Given::Both(_, own)) => *own,
        _ => 0,
    }
}

fn over_in(given: Option<&Given>) -> u64
    ensures { result ≡ over_in_of (option_copied given.entry) }
{
    match given {
        Some(Given::Ratio(over, _)) => *over,
        _ => 0,
    }
}

fn under_in(given: Option<&Given>) -> u64
    ensures { result ≡ under_in_of (option_copied given.entry) }
{
    match given {
        Some(Given::Ratio(_, under)) => *under,
        _ => 0,
    }
}

/// The text of the first word, where it is one.
fn first_text(alloc: Global, values: &Values) -> Result<Txt, AllocError>
    ensures { IfOk result (λ text. text ≡ text_in (word_of (values_of values.now) 0)) }
{
    copy_text(alloc, word(values, 0))
}

/// The value of an option.
fn choice<'a>(values: &'a Values, letter: &str) -> Option<&'a Given>
    ensures { option_copied result ≡ choice_of (values_of values.now) letter.now }
{
    option(values.options.as_slice(), letter)
}

fn option_text(alloc: Global, values: &Values, letter: &str) -> Result<Txt, AllocError>
    ensures { IfOk result (λ text. text ≡ text_in (choice_of (values_of values.now) letter.now)) }
{
    copy_text(alloc, choice(values, letter))
}

fn option_vids(alloc: Global, values: &Values) -> Result<Seq<u64>, AllocError>
    ensures { IfOk result (λ vids. vids ≡ vids_in (choice_of (values_of values.now) (codes "-v"))) }
{
    copy_vids(alloc, choice(values, "-v"))
}

/// The text of an option that may be missing.
fn text_if_given(alloc: Global, given: Option<&Given>) -> Result<Option<Txt>, AllocError>
    ensures { IfOk result (λ text. text ≡ option_map (λ g. text_in (Some g)) (option_copied given.entry)) }
{
    match given {
        Some(Given::Text(text)) => Ok(Some(text.copy(alloc)?)),
        Some(_) => Ok(Some(Txt::new(alloc, "")?)),
        None => Ok(None),
    }
}

fn schema_of(alloc: Global, columns: Vec<Column>, key: Vec<Txt>) -> Result<Schema, LineErr>
    ensures ok { IfOk result (λ schema. or_schema_refusal (schema_made columns.items key.items) ≡ Ok schema) }
    ensures err { IfErr result (Refuses (or_schema_refusal (schema_made columns.items key.items))) }
{
    match Schema::new(alloc, columns, key) {
        Ok(schema) => Ok(schema),
        Err(e) => Err(LineErr::from(e)),
    }
}

/// The schema of the options.
fn schema_in(alloc: Global, values: &Values) -> Result<Schema, LineErr>
    ensures ok { IfOk result (λ schema. or_schema_refusal (schema_made (columns_in (choice_of (values_of values.now) (codes "-s"))) (names_in (choice_of (values_of values.now) (codes "-k")))) ≡ Ok schema) }
    ensures err { IfErr result (Refuses (or_schema_refusal (schema_made (columns_in (choice_of (values_of values.now) (codes "-s"))) (names_in (choice_of (values_of values.now) (codes "-k")))))) }
{
    let columns = copy_columns(alloc, choice(values, "-s"))?;
    let key = copy_names(alloc, choice(values, "-k"))?;
    schema_of(alloc, columns, key)
}

/// The name of the dataset to make.
fn new_name(alloc: Global, values: &Values) -> Result<Txt, LineErr>
    ensures ok { IfOk result (λ cvd. cvd ≡ text_in (word_of (values_of values.now) 0)) }
    ensures name { IfOk result (λ cvd. is_name_of cvd ≡ true) }
    ensures no_name { IfErr result (λ e. e ≢ LineErr.Memory → is_name_of (text_in (word_of (values_of values.now) 0)) ≡ false) }
    ensures err { IfErr result (λ e. e ≢ LineErr.Memory → e ≡ LineErr.BadName (text_in (word_of (values_of values.now) 0))) }
{
    let cvd = first_text(alloc, values)?;
    if is_name(cvd.as_str()) {
        Ok(cvd)
    } else {
        Err(LineErr::BadName { name: cvd })
    }
}

fn make_init(alloc: Global, values: &Values) -> Result<Command, LineErr>
    ensures ok { IfOk result (λ command. init_of (values_of values.now) ≡ Ok command) }
    ensures err { IfErr result (Refuses (init_of (values_of values.now))) }
{
    let cvd = new_name(alloc, values)?;
    let schema = schema_in(alloc, values)?;
    let file = option_text(alloc, values, "-f")?;
    Ok(Command::Init { cvd, schema, file })
}

fn make_checkout(alloc: Global, values: &Values) -> Result<Command, LineErr>
    ensures ok { IfOk result (λ command. checkout_of (values_of values.now) ≡ Ok command) }
    ensures err { IfErr result (λ e. e ≡ LineErr.Memory) }
{
    let cvd = first_text(alloc, values)?;
    let vids = option_vids(alloc, values)?;
    let file = text_if_given(alloc, choice(values, "-f"))?;
    let table = text_if_given(alloc, choice(values, "-t"))?;
    Ok(Command::Checkout {
        cvd,
        vids,
        file,
        table,
    })
}

/// The columns to add, of which there is one at least.
fn some_columns(alloc: Global, given: Option<&Given>) -> Result<Option<Seq<Column>>, LineErr>
    ensures ok { IfOk result (λ columns. some_columns_of (option_copied given.entry) ≡ Ok columns) }
    ensures err { IfErr result (Refuses (some_columns_of (option_copied given.entry))) }
{
    if given.is_none() {
        return Ok(None);
    }
    let columns = copy_columns(alloc, given)?;
    if columns.is_empty() {
        return Err(LineErr::NoColumns);
    }
    Ok(Some(Seq::from_vec(columns)))
}

/// What each commit names.
#[derive(Drop)]
struct CommitParts {
    cvd: Txt,
    vids: Seq<u64>,
    file: Txt,
    message: Txt,
}

fn commit_parts(alloc: Global, values: &Values) -> Result<CommitParts, AllocError>
    ensures cvd { IfOk result (λ parts. parts.cvd ≡ text_in (word_of (values_of values.now) 0)) }
    ensures vids { IfOk result (λ parts. parts.vids ≡ vids_in (choice_of (values_of values.now) (codes "-v"))) }
    ensures file { IfOk result (λ parts. parts.file ≡ text_in (choice_of (values_of values.now) (codes "-f"))) }
    ensures message { IfOk result (λ parts. parts.message ≡ text_in (choice_of (values_of values.now) (codes "-m"))) }
{
    let cvd = first_text(alloc, values)?;
    let vids = option_vids(alloc, values)?;
    let file = option_text(alloc, values, "-f")?;
    let message = option_text(alloc, values, "-m")?;
    Ok(CommitParts {
        cvd,
        vids,
        file,
        message,
    })
}

fn make_commit(alloc: Global, values: &Values) -> Result<Command, LineErr>
    ensures ok { IfOk result (λ command. commit_of (values_of values.now) ≡ Ok command) }
    ensures err { IfErr result (Refuses (commit_of (values_of values.now))) }
{
    let parts = commit_parts(alloc, values)?;
    let added = some_columns(alloc, choice(values, "-a"))?;
    Ok(Command::Commit {
        cvd: parts.cvd,
        vids: parts.vids,
        file: parts.file,
        message: parts.message,
        added,
    })
}

fn make_commit_staged(alloc: Global, values: &Values) -> Result<Command, LineErr>
    ensures ok { IfOk result (λ command. commit_staged_of (values_of values.now) ≡ Ok command) }
    ensures err { IfErr result (λ e. e ≡ LineErr.Memory) }
{
    let user = copy_user(alloc, choice(values, "-t"))?;
    let table = copy_table(alloc, choice(values, "-t"))?;
    let message = option_text(alloc, values, "-m")?;
    Ok(Command::CommitStaged {
        user,
        table,
        message,
    })
}

fn make_optimize(alloc: Global, values: &Values) -> Result<Command, LineErr>
    ensures ok { IfOk result (λ command. optimize_of (values_of values.now) ≡ Ok command) }
    ensures err { IfErr result (λ e. e ≡ LineErr.Memory) }
{
    let cvd = first_text(alloc, values)?;
    let threshold = choice(values, "-d");
    if threshold.is_some() {
        let p = over_in(threshold);
        let q = under_in(threshold);
        return Ok(Command::Optimize { cvd, p, q });
    }
    let budget = number_from(choice(values, "-s"));
    Ok(Command::OptimizeWithin { cvd, budget })
}

fn make_advise(alloc: Global, values: &Values) -> Result<Command, LineErr>
    ensures ok { IfOk result (λ command. advise_of (values_of values.now) ≡ Ok command) }
    ensures err { IfErr result (λ e. e ≡ LineErr.Memory) }
{
    let cvd = first_text(alloc, values)?;
    let budget = number_from(choice(values, "-s"));
    let ratio = choice(values, "-m");
    Ok(Command::Advise {
        cvd,
        budget,
        a: over_in(ratio),
        b: under_in(ratio),
    })
}

fn make_generate(alloc: Global, values: &Values) -> Result<Command, LineErr>
    ensures ok { IfOk result (λ command. generate_of (values_of values.now) ≡ Ok command) }
    ensures err { IfErr result (Refuses (generate_of (values_of values.now))) }
{
    let cvd = new_name(alloc, values)?;
    Ok(Command::Generate {
        cvd,
        seed: number_from(word(values, 1)),
        rows: before_in(word(values, 3)),
        versions: own_in(word(values, 3)),
    })
}

fn make_unstage(alloc: Global, values: &Values) -> Result<Command, LineErr>
    ensures ok { IfOk result (λ command. make_of makes.Unstage (values_of values.now) ≡ Ok command) }
    ensures err { IfErr result (λ e. e ≡ LineErr.Memory) }
{
    let user = copy_user(alloc, word(values, 0))?;
    let table = copy_table(alloc, word(values, 0))?;
    Ok(Command::Unstage { user, table })
}

fn make_run(alloc: Global, values: &Values) -> Result<Command, LineErr>
    ensures ok { IfOk result (λ command. make_of makes.Run (values_of values.now) ≡ Ok command) }
    ensures err { IfErr result (λ e. e ≡ LineErr.Memory) }
{
    let text = first_text(alloc, values)?;
    Ok(Command::Run { text })
}

/// The command that the values make, or the last refusals of a line.
pub(crate) fn make(alloc: Global, maker: Maker, values: &Values) -> Result<Command, LineErr>
    ensures ok { IfOk result (λ command. make_of maker (values_of values.now) ≡ Ok command) }
    ensures err { IfErr result (Refuses (make_of maker (values_of values.now))) }
{
    match maker {
        Maker::Init => make_init(alloc, values),
        Maker::Commit => make_commit(alloc, values),
        Maker::Generate => make_generate(alloc, values),
        Maker::Checkout => make_checkout(alloc, values),
        Maker::CommitStaged => make_commit_staged(alloc, values),
        Maker::Run => make_run(alloc, values),
        Maker::Optimize => make_optimize(alloc, values),
        Maker::Advise => make_advise(alloc, values),
        Maker::Migrate => Ok(Command::Migrate {
            count: count_in(word(values, 0)),
        }),
        Maker::Layout => Ok(Command::Layout {
            cvd: first_text(alloc, values)?,
        }),
        Maker::Log => Ok(Command::Log {
            cvd: first_text(alloc, values)?,
        }),
        Maker::DropCvd => Ok(Command::DropCvd {
            cvd: first_text(alloc, values)?,
        }),
        Maker::Ls => Ok(Command::Ls),
        Maker::Checkpoint => Ok(Command::Checkpoint),
        Maker::Whoami => Ok(Command::Whoami),
        Maker::Tables => Ok(Command::Tables),
        Maker::CreateUser => Ok(Command::CreateUser {
            name: first_text(alloc, values)?,
        }),
        Maker::Config => Ok(Command::Config {
            name: first_text(alloc, values)?,
        }),
        Maker::Unstage => make_unstage(alloc, values),
    }
}
