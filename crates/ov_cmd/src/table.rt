//! The table of forms: a row for each command. A command is added by adding its row.

ghost use Rattle.std.specs.Prelude.{◌≡◌, map};
ghost use Rattle.ov_model.specs.Forms.{all_forms};
ghost use Rattle.ov_cmd.specs.Table.{form_of};

use crate::form::{Choice, Form, Maker, Param};
use ov_model::Reading;

const CVD: Param = Param {
    what: "cvd",
    reads: Reading::AnyText,
};

const NAME: Param = Param {
    what: "name",
    reads: Reading::AnyText,
};

// The greatest number of 18 digits is below it, so that it bounds none.
const NO_BOUND: u64 = 1_000_000_000_000_000_000;

const A_NUMBER: Reading = Reading::NumberFrom {
    least: 0,
    most: NO_BOUND,
};

const SEED: Param = Param {
    what: "seed",
    reads: A_NUMBER,
};

const ROWS: Param = Param {
    what: "rows",
    reads: Reading::NumberFrom {
        least: 1,
        most: NO_BOUND,
    },
};

const VERSIONS: Param = Param {
    what: "versions",
    reads: Reading::NumberWith {
        each: 65_535,
        most: 1_000_000,
    },
};

const VIDS: Choice = Choice {
    letter: "-v",
    reads: Reading::ListOfVids,
    needed: true,
    rival: "",
};

const FILE: Choice = Choice {
    letter: "-f",
    reads: Reading::FileName,
    needed: true,
    rival: "",
};

const MESSAGE: Choice = Choice {
    letter: "-m",
    reads: Reading::Message,
    needed: true,
    rival: "",
};

const SCHEMA: Choice = Choice {
    letter: "-s",
    reads: Reading::SchemaItems,
    needed: true,
    rival: "",
};

const KEY: Choice = Choice {
    letter: "-k",
    reads: Reading::ListOfNames,
    needed: true,
    rival: "",
};

const ADDED: Choice = Choice {
    letter: "-a",
    reads: Reading::SchemaItems,
    needed: false,
    rival: "",
};

const FILE_OR_TABLE: Choice = Choice {
    letter: "-f",
    reads: Reading::FileName,
    needed: false,
    rival: "-t",
};

const TABLE_OR_FILE: Choice = Choice {
    letter: "-t",
    reads: Reading::AnyText,
    needed: false,
    rival: "-f",
};

const STAGED: Choice = Choice {
    letter: "-t",
    reads: Reading::StagedTable,
    needed: true,
    rival: "",
};

const THRESHOLD: Choice = Choice {
    letter: "-d",
    reads: Reading::TwoNumbers,
    needed: true,
    rival: "-s",
};

const BUDGET_OR_THRESHOLD: Choice = Choice {
    letter: "-s",
    reads: A_NUMBER,
    needed: false,
    rival: "-d",
};

const BUDGET: Choice = Choice {
    letter: "-s",
    reads: A_NUMBER,
    needed: true,
    rival: "",
};

const RATIO: Choice = Choice {
    letter: "-m",
    reads: Reading::TwoNumbers,
    needed: true,
    rival: "",
};

/// Every command of the product.
static ALL: [Form; 19] = [
    Form {
        name: "init",
        second: None,
        whole: false,
        params: &[CVD],
        choices: &[SCHEMA, KEY, FILE],
        maker: Maker::Init,
    },
    Form {
        name: "checkout",
        second: None,
        whole: false,
        params: &[CVD],
        choices: &[VIDS, FILE_OR_TABLE, TABLE_OR_FILE],
        maker: Maker::Checkout,
    },
    Form {
        name: "commit",
        second: Some("-t"),
        whole: false,
        params: &[],
        choices: &[STAGED, MESSAGE],
        maker: Maker::CommitStaged,
    },
    Form {
        name: "commit",
        second: None,
        whole: false,
        params: &[CVD],
        choices: &[VIDS, FILE, MESSAGE, ADDED],
        maker: Maker::Commit,
    },
    Form {
        name: "run",
        second: None,
        whole: true,
        params: &[],
        choices: &[],
        maker: Maker::Run,
    },
    Form {
        name: "optimize",
        second: None,
        whole: false,
        params: &[CVD],
        choices: &[THRESHOLD, BUDGET_OR_THRESHOLD],
        maker: Maker::Optimize,
    },
    Form {
        name: "advise",
        second: None,
        whole: false,
        params: &[CVD],
        choices: &[BUDGET, RATIO],
        maker: Maker::Advise,
    },
    Form {
        name: "migrate",
        second: None,
        whole: false,
        params: &[Param {
            what: "n",
            reads: Reading::CountTo { most: 1_000_000 },
        }],
        choices: &[],
        maker: Maker::Migrate,
    },
    Form {
        name: "layout",
        second: None,
        whole: false,
        params: &[CVD],
        choices: &[],
        maker: Maker::Layout,
    },
    Form {
        name: "log",
        second: None,
        whole: false,
        params: &[CVD],
        choices: &[],
        maker: Maker::Log,
    },
    Form {
        name: "drop",
        second: None,
        whole: false,
        params: &[CVD],
        choices: &[],
        maker: Maker::DropCvd,
    },
    Form {
        name: "ls",
        second: None,
        whole: false,
        params: &[],
        choices: &[],
        maker: Maker::Ls,
    },
    Form {
        name: "checkpoint",
        second: None,
        whole: false,
        params: &[],
        choices: &[],
        maker: Maker::Checkpoint,
    },
    Form {
        name: "whoami",
        second: None,
        whole: false,
        params: &[],
        choices: &[],
        maker: Maker::Whoami,
    },
    Form {
        name: "tables",
        second: None,
        whole: false,
        params: &[],
        choices: &[],
        maker: Maker::Tables,
    },
    Form {
        name: "generate",
        second: None,
        whole: false,
        params: &[CVD, SEED, ROWS, VERSIONS],
        choices: &[],
        maker: Maker::Generate,
    },
    Form {
        name: "create_user",
        second: None,
        whole: false,
        params: &[NAME],
        choices: &[],
        maker: Maker::CreateUser,
    },
    Form {
        name: "config",
        second: None,
        whole: false,
        params: &[NAME],
        choices: &[],
        maker: Maker::Config,
    },
    Form {
        name: "unstage",
        second: None,
        whole: false,
        params: &[Param {
            what: "user.table",
            reads: Reading::StagedTable,
        }],
        choices: &[],
        maker: Maker::Unstage,
    },
];

/// The forms of every command of the product.
pub(crate) fn all() -> &'static [Form]
    ensures { map form_of result.now ≡ all_forms }
{
    &ALL
}
