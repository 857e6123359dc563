//! What lines of users, staged tables and budgets ask for, as commands.

use ov_cmd::{LineErr, read_line};
use ov_model::Command;
use std::test::Fail;

// What a line is, with up to two texts and a number.
type Said<'a> = (&'a str, &'a str, &'a str, u64);

fn asked(command: &Command) -> Said<'_> {
    match command {
        Command::Checkout {
            table: Some(table),
            ..
        } => ("staged", table.as_str(), "", 0),
        Command::CommitStaged { user, table, .. } => ("commit", user.as_str(), table.as_str(), 0),
        Command::OptimizeWithin { cvd, budget } => ("within", cvd.as_str(), "", *budget),
        Command::Advise {
            cvd,
            budget,
            a: 3,
            b: 2,
        } => ("advise 3/2", cvd.as_str(), "", *budget),
        Command::CreateUser { name } => ("create_user", name.as_str(), "", 0),
        Command::Config { name } => ("config", name.as_str(), "", 0),
        Command::Whoami => ("whoami", "", "", 0),
        Command::Unstage { user, table } => ("unstage", user.as_str(), table.as_str(), 0),
        Command::Tables => ("tables", "", "", 0),
        _ => ("another", "", "", 0),
    }
}

fn refused(why: &LineErr) -> Said<'_> {
    match why {
        LineErr::Missing { what } => ("missing", what.as_str(), "", 0),
        LineErr::UnexpectedWord { nth } => ("unexpected", "", "", *nth),
        LineErr::BadNumber => ("bad number", "", "", 0),
        LineErr::NoColumns => ("no columns", "", "", 0),
        _ => ("refused", "", "", 0),
    }
}

const LINES: [(&str, Said<'static>); 17] = [
    ("checkout people -v 2,1 -t work", ("staged", "work", "", 0)),
    ("commit -t ann.work.x -m x", ("commit", "ann", "work.x", 0)),
    ("optimize chain -s 12", ("within", "chain", "", 12)),
    ("advise chain -s 12 -m 3/2", ("advise 3/2", "chain", "", 12)),
    ("create_user ann", ("create_user", "ann", "", 0)),
    ("config ann", ("config", "ann", "", 0)),
    ("whoami", ("whoami", "", "", 0)),
    ("unstage ann.work", ("unstage", "ann", "work", 0)),
    ("tables", ("tables", "", "", 0)),
    ("unstage", ("missing", "user.table", "", 0)),
    ("config", ("missing", "name", "", 0)),
    ("optimize chain", ("missing", "-d", "", 0)),
    ("unstage work", ("unexpected", "", "", 2)),
    ("checkout people -f a -t b -v 1", ("unexpected", "", "", 5)),
    ("optimize chain -s 1 -d 1/2", ("unexpected", "", "", 5)),
    ("advise chain -s 12 -m 3", ("bad number", "", "", 0)),
    (
        "commit people -v 1 -f b.csv -m x -a \"\"",
        ("no columns", "", "", 0),
    ),
];

#[test]
fn lines_of_users_and_budgets(rt: HostRuntime) -> Result<(), Fail> {
    for (line, wanted) in LINES {
        let found = read_line(rt.alloc(), line.as_bytes());
        let said = match &found {
            Ok(Some(command)) => asked(command),
            Ok(None) => ("none", "", "", 0),
            Err(why) => refused(why),
        };
        assert!(rt; said.0 == wanted.0 && said.3 == wanted.3, "{line}");
        assert!(rt; said.1 == wanted.1 && said.2 == wanted.2, "{line}");
    }
    Ok(())
}
