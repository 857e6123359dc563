//! The forms of the commands, in one table: the words and options of each, and the command that their values make.

use ov_model::Reading;

/// A word in order: what it is called where it is missing, and how it is read.
#[derive(Clone, Copy)]
pub(crate) struct Param {
    pub what: &'static str,
    pub reads: Reading,
}

/// An option: how it is written, how its value is read, whether it is needed, and the option that excludes it and does in its
/// place, empty for none.
#[derive(Clone, Copy)]
pub(crate) struct Choice {
    pub letter: &'static str,
    pub reads: Reading,
    pub needed: bool,
    pub rival: &'static str,
}

/// What the values of a line make.
#[derive(Clone, Copy)]
pub(crate) enum Maker {
    Init,
    Checkout,
    Commit,
    CommitStaged,
    Run,
    Optimize,
    Advise,
    Migrate,
    Layout,
    Log,
    DropCvd,
    Ls,
    Checkpoint,
    Whoami,
    Tables,
    Generate,
    CreateUser,
    Config,
    Unstage,
}

/// A form: the command's name, the word 2 that sets it apart from another form of that name, whether all that stands behind
/// the name is one text, its words, its options, and what their values make.
#[derive(Clone, Copy)]
pub(crate) struct Form {
    pub name: &'static str,
    pub second: Option<&'static str>,
    pub whole: bool,
    pub params: &'static [Param],
    pub choices: &'static [Choice],
    pub maker: Maker,
}
