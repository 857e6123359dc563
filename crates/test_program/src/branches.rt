//! Columns that two branches add: the dataset has them from the first one on, and the other one takes them as they are.
use crate::courses::said;
use crate::ends::{NEVER, host_of};
use std::test::Fail;

// Versions 2 and 3 come from version 1.
const BEGINNING: &str =
    "init people -s id:int,name:text,score:int -k id -f a.csv\ncommit people -v 1 -f b.csv -m raise\ncommit people -v 1 -f m.csv -m more\n";

// Lines on these branches, and what they print.
const BRANCHES: [(&str, &str); 5] = [
    // The same column is refused, of another kind too, and there without being added again.
    (
        "commit people -v 2 -f w.csv -m one -a team:text\ncommit people -v 3 -f w.csv -m two -a team:text\ncommit people -v 3 -f w.csv -m two -a team:int\n",
        "people: version 4 (3 rows, 2 new)\nerror 64: column team is repeated\nerror 64: column team is repeated\n",
    ),
    (
        "commit people -v 2 -f w.csv -m one -a team:text\ncommit people -v 3 -f w.csv -m two\ncheckout people -v 1,5\n",
        "people: version 4 (3 rows, 2 new)\npeople: version 5 (3 rows, 2 new)\nid,name,score,team\n1,ann,10,\\N\n2,bob,20,\\N\n3,cy,30,\n",
    ),
    // A file without it is refused on either branch.
    (
        "commit people -v 2 -f w.csv -m one -a team:text\ncommit people -v 3 -f m.csv -m two\ncommit people -v 2 -f b.csv -m two\n",
        "people: version 4 (3 rows, 2 new)\nerror 31: the header differs from the schema\nerror 31: the header differs from the schema\n",
    ),
    // Others come behind it, and a merge of both has rows of either.
    (
        "commit people -v 2 -f w.csv -m one -a team:text\ncommit people -v 3 -f x.csv -m two -a ok:flag\ncommit people -v 4,5 -f x.csv -m both\ncheckout people -v 4,5\n",
        "people: version 4 (3 rows, 2 new)\npeople: version 5 (3 rows, 2 new)\npeople: version 6 (3 rows, 0 new)\nid,name,score,team,ok\n1,ann,10,\\N,\n2,bob,25,red,\n3,cy,30,,\n",
    ),
    // What is refused adds none.
    (
        "commit people -v 2 -f z.csv -m one -a team:text\ncommit people -v 3 -f w.csv -m two\ncommit people -v 3 -f w.csv -m two -a team:text\n",
        "error 70: no file z.csv\nerror 31: the header differs from the schema\npeople: version 4 (3 rows, 2 new)\n",
    ),
];

#[test]
fn branches_share_the_columns_that_are_added(rt: HostRuntime) -> Result<(), Fail> {
    let alloc = rt.alloc();
    for (lines, replies) in BRANCHES {
        let mut host = host_of(alloc, NEVER)?;
        said(alloc, &mut host, BEGINNING)?;
        assert!(rt; said(alloc, &mut host, lines)?.as_slice() == replies.as_bytes());
    }
    Ok(())
}
