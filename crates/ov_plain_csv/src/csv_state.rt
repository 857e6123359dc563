//! The states of a reader of CSV, and what each byte does.

ghost use Rattle.std.specs.Prelude.{◌≡◌};
ghost use Rattle.csv.specs.Machine.{ends_at_end, in_field, start_field, start_record, step};
ghost use Rattle.csv.specs.Reading.{default_config};
ghost use Rattle.ov_plain_csv.specs.Splitting.{state_of, action_of};

/// Where a reader stands. The default reader knows no escapes and no comments, so it is never in one.
#[derive(Clone, Copy)]
pub enum State {
    StartRecord,
    StartField,
    InField,
    InQuoted,
    AfterQuote,
    AfterCr,
}

/// What a byte does to the field at hand.
#[derive(Clone, Copy)]
pub enum Action {
    Copy,
    EndField,
    EndRecord,
    Skip,
}

/// A byte in a field without quotes.
fn in_field(byte: u8) -> (State, Action)
    ensures state { state_of result.0 ≡ (in_field default_config byte).0 }
    ensures action { action_of result.1 ≡ (in_field default_config byte).1 }
{
    match byte {
        b',' => (State::StartField, Action::EndField),
        b'\r' => (State::AfterCr, Action::EndRecord),
        b'\n' => (State::StartRecord, Action::EndRecord),
        _ => (State::InField, Action::Copy),
    }
}

/// The first byte of a field.
fn start_field(byte: u8) -> (State, Action)
    ensures state { state_of result.0 ≡ (start_field default_config byte).0 }
    ensures action { action_of result.1 ≡ (start_field default_config byte).1 }
{
    match byte {
        b'"' => (State::InQuoted, Action::Skip),
        _ => in_field(byte),
    }
}

/// The first byte of a record; empty lines are none.
fn start_record(byte: u8) -> (State, Action)
    ensures state { state_of result.0 ≡ (start_record default_config byte).0 }
    ensures action { action_of result.1 ≡ (start_record default_config byte).1 }
{
    match byte {
        b'\r' | b'\n' => (State::StartRecord, Action::Skip),
        _ => start_field(byte),
    }
}

/// A byte in quotes.
fn in_quoted(byte: u8) -> (State, Action)
    ensures state { state_of result.0 ≡ (step default_config (state_of State.InQuoted) byte).0 }
    ensures action { action_of result.1 ≡ (step default_config (state_of State.InQuoted) byte).1 }
{
    match byte {
        b'"' => (State::AfterQuote, Action::Skip),
        _ => (State::InQuoted, Action::Copy),
    }
}

/// A byte behind a quote in quotes: a second quote stands for one.
fn after_quote(byte: u8) -> (State, Action)
    ensures state { state_of result.0 ≡ (step default_config (state_of State.AfterQuote) byte).0 }
    ensures action { action_of result.1 ≡ (step default_config (state_of State.AfterQuote) byte).1 }
{
    match byte {
        b'"' => (State::InQuoted, Action::Copy),
        _ => in_field(byte),
    }
}

/// A byte behind a carriage return that ended a record.
fn after_cr(byte: u8) -> (State, Action)
    ensures state { state_of result.0 ≡ (step default_config (state_of State.AfterCr) byte).0 }
    ensures action { action_of result.1 ≡ (step default_config (state_of State.AfterCr) byte).1 }
{
    match byte {
        b'\n' => (State::StartRecord, Action::Skip),
        _ => start_record(byte),
    }
}

/// The state after a byte, and what it does.
pub fn step(state: State, byte: u8) -> (State, Action)
    ensures state { state_of result.0 ≡ (step default_config (state_of state) byte).0 }
    ensures action { action_of result.1 ≡ (step default_config (state_of state) byte).1 }
{
    match state {
        State::StartRecord => start_record(byte),
        State::StartField => start_field(byte),
        State::InField => in_field(byte),
        State::InQuoted => in_quoted(byte),
        State::AfterQuote => after_quote(byte),
        State::AfterCr => after_cr(byte),
    }
}

/// Whether the end of the text ends a record.
pub fn ends_at_end(state: State) -> bool
    ensures { result ≡ ends_at_end (state_of state) }
{
    match state {
        State::StartRecord | State::AfterCr => false,
        State::StartField | State::InField | State::InQuoted | State::AfterQuote => true,
    }
}
