//! States that have no fault, and what is told of each where a part of it is another. What is told was
//! worked out by the rules, by hand, and another program answers the same.

/// A part of a state by its name, and its bytes in hexadecimal digits, where `@n` is the account n, and
/// `~` the sum 100 and the squares 5,200 of a claim.
pub type Part = (&'static str, &'static str);

/// What is told where these parts are others.
pub type Case = (&'static str, &'static [Part]);

/// The members of two eras.
const BOTH_ERAS: &str =
    "01 04 08 @2 14 08 @2 0c @1 10 1c 00 00 @3 00 04 @1 14 1c 00 02 28 6b ee 01 08 04 @2 \
00 04 @1 04 1c 00 1c 00";

/// Rows that hold no deposit.
const RETURNED: &str =
    "01 @1 91 01 c8 08 14 0c 14 10 00 01 @2 14 a0 00 00 01 @3 3c 00 04 50 10 00 01 @4 1c \
00 00 00 00";

/// Two targets and two voters.
const SNAPSHOT: &str = "01 08 @2 91 01 @3 00 08 @1 c8 08 00 04 @2 a0 04 00";

/// Block 23 is the snapshot's, in era 2: there is no fault.
pub static OPEN: [Part; 27] = [
    ("form", "00"),
    ("params", "01"),
    ("root", "@1"),
    ("seats", "04"),
    ("era blocks", "28"),
    ("offset", "08"),
    ("signed", "0c"),
    ("bonding eras", "08"),
    ("least bond", "04"),
    ("thresholds", "08 28 13 ff ff ff ff ff ff ff ff"),
    ("places", "0c"),
    ("solution", "10"),
    ("deposit", "14"),
    ("reward", "04"),
    ("era reward", "04"),
    ("wait", "04"),
    ("next block", "60"),
    ("sums", "c1 03 28 0c"),
    (
        "rows",
        "01 @1 91 01 c8 08 14 0c 14 10 00 01 @2 00 a0 00 14 01 @3 28 00 04 50 10 14 01 @4 1c \
00 00 00 00",
    ),
    (
        "roles",
        "01 @1 04 00 08 @2 @4 01 @2 04 01 91 01 01 @3 00 01 02 28 6b ee 00",
    ),
    ("eras", BOTH_ERAS),
    ("round", SNAPSHOT),
    ("queue", "24 08 1c @2 a0 ~ 10 00 00 00 00 20 @3 a0 ~ 04 00"),
    ("waiting", "00"),
    ("members", ""),
    ("edges", ""),
    ("slashes", "14 08 04 0c 08 @1 14 @2 14 10 0c 00"),
];

/// Where block 26 is the decision's, in era 2: these parts are others, and there is no fault.
pub static DECIDED: [Part; 7] = [
    ("next block", "6c"),
    ("rows", RETURNED),
    ("round", "00"),
    ("queue", "24 00"),
    ("waiting", SNAPSHOT),
    ("members", "04 00"),
    ("edges", "08 00 00 78 04 00 50"),
];

/// Without params nobody is elected: there is no fault.
pub static PLAIN: [Part; 13] = [
    ("form", "00"),
    ("params", "00"),
    ("next block", "6c"),
    ("sums", "c1 03 28 0c"),
    ("rows", RETURNED),
    ("roles", "01 @1 00 00 04 @2 00"),
    ("eras", "00"),
    ("round", "00"),
    ("queue", "24 00"),
    ("waiting", "00"),
    ("members", ""),
    ("edges", ""),
    ("slashes", "14 00"),
];

/// The number of the next block, and params with their number as that of a genesis.
pub static TERMS: [Case; 17] = [
    ("1 0", &[("next block", "00")]),
    ("1 4294967297", &[("next block", "07 01 00 00 00 01")]),
    ("2 3", &[("seats", "00")]),
    ("2 3", &[("seats", "05 08")]),
    ("2 4", &[("offset", "00")]),
    ("2 4", &[("signed", "00")]),
    ("2 4", &[("era blocks", "14")]),
    ("2 5", &[("bonding eras", "00")]),
    ("2 5", &[("bonding eras", "55 01")]),
    ("2 6", &[("least bond", "00")]),
    ("2 7", &[("thresholds", "04 00")]),
    ("2 7", &[("thresholds", "08 28 28")]),
    ("2 8", &[("places", "00")]),
    ("2 8", &[("places", "44")]),
    ("2 9", &[("solution", "00")]),
    ("2 9", &[("solution", "06 00 80 00")]),
    ("2 10", &[("wait", "08")]),
];

/// Rows that are wrong, and sums that fail.
pub static ROWS: [Case; 9] = [
    ("3 1", &[("rows", "01 @1 24 00 00 00 01 @1 24 00 00 00 00")]),
    ("3 1", &[("rows", "01 @2 24 00 00 00 01 @1 24 00 00 00 00")]),
    ("3 0", &[("rows", "01 @1 24 00 04 00 0c 00 00")]),
    ("3 0", &[("rows", "01 @1 24 00 08 08 0c 08 0c 00 00")]),
    ("3 0", &[("rows", "01 @1 24 00 08 08 10 08 0c 00 00")]),
    ("3 0", &[("rows", "01 @1 24 00 04 08 14 00 00")]),
    ("4 0", &[("sums", "c1 03 2c 0c")]),
    ("4 0", &[("sums", "c1 03 28 10")]),
    (
        "4 0",
        &[(
            "sums",
            "13 00 00 00 00 00 00 00 80 00 13 09 ff ff ff ff ff ff 7f",
        )],
    ),
];

/// Roles.
pub static ROLES: [Case; 11] = [
    ("5 0", &[("roles", "01 @9 00 01 00 00")]),
    ("5 0", &[("roles", "01 @4 00 01 00 00")]),
    ("5 1", &[("roles", "01 @1 00 01 00 01 @1 00 01 00 00")]),
    ("5 0", &[("roles", "01 @1 0c 01 00 00")]),
    ("5 0", &[("roles", "01 @1 08 01 00 00")]),
    ("5 1", &[("roles", "01 @1 00 01 00 01 @2 04 01 00 00")]),
    ("5 0", &[("roles", "01 @1 00 00 00 00")]),
    (
        "5 0",
        &[(
            "roles",
            "01 @1 00 00 64 @2 @3 @4 @5 @6 @7 @8 @9 @10 @11 @12 @13 @14 @15 @16 @17 @18 @19 @20 \
@21 @22 @23 @24 @25 @26 00",
        )],
    ),
    ("5 0", &[("roles", "01 @1 00 00 0c @2 @3 @2 00")]),
    ("5 0", &[("roles", "01 @1 00 00 08 @2 @1 00")]),
    ("5 0", &[("roles", "01 @1 00 01 06 28 6b ee 00")]),
];

/// Eras.
pub static ERAS: [Case; 14] = [
    ("6 0", &[("eras", "01 00 04 @2 00 00 1c 00 00 00")]),
    (
        "6 1",
        &[(
            "eras",
            "01 04 04 @2 00 00 1c 00 00 01 04 04 @2 00 00 1c 00 00 00",
        )],
    ),
    ("6 0", &[("eras", "01 0c 04 @2 00 00 1c 00 00 00")]),
    (
        "6 0",
        &[
            ("next block", "b1 0f"),
            ("eras", "01 3c 04 @2 00 00 1c 00 00 00"),
        ],
    ),
    ("6 0", &[("eras", "01 04 00 00")]),
    (
        "6 0",
        &[("eras", "01 04 08 @2 00 00 1c 00 00 @2 00 00 1c 00 00 00")],
    ),
    ("6 0", &[("eras", "01 04 04 @9 00 00 1c 00 00 00")]),
    ("6 0", &[("eras", "01 04 04 @2 00 04 @9 04 1c 00 00 00")]),
    (
        "6 0",
        &[("eras", "01 04 04 @2 00 0c @1 04 @3 04 @1 04 1c 00 00 00")],
    ),
    ("6 0", &[("eras", "01 04 04 @2 00 04 @1 00 1c 00 00 00")]),
    (
        "6 0",
        &[("eras", "01 04 04 @2 00 08 @1 04 @2 04 1c 00 00 00")],
    ),
    (
        "6 0",
        &[(
            "eras",
            "01 04 04 @2 00 08 @2 13 ff ff ff ff ff ff ff ff @1 04 1c 00 00 00",
        )],
    ),
    ("6 0", &[("eras", "01 04 04 @2 06 28 6b ee 00 1c 00 00 00")]),
    ("6 0", &[("eras", "01 04 04 @2 00 00 1c 00 06 28 6b ee 00")]),
];

/// Snapshots of an open round.
pub static ROUNDS: [Case; 9] = [
    ("7 0", &[("next block", "5c")]),
    ("7 0", &[("next block", "6c")]),
    (
        "7 0",
        &[("round", "01 08 @2 00 @2 00 08 @1 c8 08 00 04 @2 a0 04 00")],
    ),
    (
        "7 0",
        &[("round", "01 08 @3 00 @2 00 08 @1 c8 08 00 04 @2 a0 04 00")],
    ),
    (
        "7 0",
        &[("round", "01 08 @2 00 @9 00 08 @1 c8 08 00 04 @2 a0 04 00")],
    ),
    ("7 0", &[("round", "01 08 @2 91 01 @3 00 04 @9 c8 04 00")]),
    (
        "7 0",
        &[(
            "round",
            "01 08 @2 06 28 6b ee @3 00 08 @1 c8 08 00 04 @2 a0 04 00",
        )],
    ),
    ("7 0", &[("round", "01 08 @2 91 01 @3 00 04 @1 c8 04 08")]),
    ("7 0", &[("round", "01 08 @2 91 01 @3 00 00")]),
];

/// Submissions, and what is held for them.
pub static QUEUES: [Case; 13] = [
    (
        "8 0",
        &[("queue", "00 08 1c @2 a0 ~ 10 00 00 00 00 20 @3 a0 ~ 04 00")],
    ),
    (
        "8 0",
        &[(
            "queue",
            "09 17 08 1c @2 a0 ~ 10 00 00 00 00 20 @3 a0 ~ 04 00",
        )],
    ),
    ("8 0", &[("round", "00")]),
    (
        "8 3",
        &[(
            "queue",
            "24 10 04 @2 a0 ~ 04 00 08 @2 a0 ~ 04 00 0c @2 a0 ~ 04 00 10 @2 a0 ~ 04 00",
        )],
    ),
    ("8 0", &[("queue", "24 04 1c @9 a0 ~ 04 00")]),
    ("8 0", &[("queue", "24 04 00 @2 a0 ~ 04 00")]),
    (
        "8 1",
        &[("queue", "24 08 1c @2 a0 ~ 04 00 1c @3 9c ~ 04 00")],
    ),
    ("8 0", &[("queue", "24 04 24 @2 a0 ~ 04 00")]),
    (
        "8 1",
        &[("queue", "24 08 1c @2 a0 ~ 04 00 20 @3 a4 ~ 04 00")],
    ),
    (
        "8 1",
        &[("queue", "24 08 20 @2 a0 ~ 04 00 1c @3 a0 ~ 04 00")],
    ),
    (
        "8 1",
        &[(
            "queue",
            "24 08 1c @2 a0 ~ 04 00 20 @3 a0 ~ 14 00 00 00 00 00",
        )],
    ),
    (
        "9 1",
        &[("queue", "24 08 1c @3 a0 ~ 04 00 20 @3 a0 ~ 04 00")],
    ),
    ("9 2", &[("queue", "24 04 1c @2 a0 ~ 04 00")]),
];

/// Committees that wait.
pub static WAITING: [Case; 12] = [
    ("10 0", &[("next block", "68")]),
    (
        "10 0",
        &[
            ("waiting", "01 08 @2 00 @9 00 08 @1 c8 08 00 04 @2 a0 04 00"),
            ("edges", "00"),
        ],
    ),
    (
        "10 0",
        &[
            ("waiting", "01 08 @2 91 01 @3 00 04 @9 c8 04 00"),
            ("edges", "00"),
        ],
    ),
    (
        "10 0",
        &[
            (
                "waiting",
                "01 04 @2 06 28 6b ee 08 @1 c8 08 00 04 @2 a0 04 00",
            ),
            ("edges", "00"),
        ],
    ),
    (
        "10 0",
        &[
            ("waiting", "01 08 @2 91 01 @3 00 04 @1 c8 08 00 00"),
            ("edges", "00"),
        ],
    ),
    (
        "10 0",
        &[
            ("waiting", "01 08 @3 00 @2 00 08 @1 c8 08 00 04 @2 a0 04 00"),
            ("edges", "00"),
        ],
    ),
    ("10 0", &[("members", "08 00 00"), ("edges", "00")]),
    ("10 0", &[("members", "08 04 00"), ("edges", "00")]),
    ("10 0", &[("edges", "08 04 00 14 00 00 14")]),
    ("10 0", &[("edges", "08 00 04 14 00 00 14")]),
    ("10 0", &[("edges", "08 00 00 14 00 00 14")]),
    ("10 0", &[("edges", "04 00 00 00")]),
];

/// Committees that were not elected, with the number of the verdict.
pub static ELECTIONS: [Case; 6] = [
    ("11 11", &[("edges", "08 00 00 cc 04 00 50")]),
    ("11 3", &[("edges", "04 00 04 14")]),
    ("11 8", &[("members", "08 00 04")]),
    ("11 3", &[("members", "04 08")]),
    ("11 2", &[("edges", "04 08 00 14")]),
    ("11 6", &[("members", "04 04"), ("edges", "04 04 04 14")]),
];

/// Slashes that wait.
pub static SLASHES: [Case; 11] = [
    (
        "12 0",
        &[("slashes", "00 08 04 0c 08 @1 14 @2 14 10 0c 00")],
    ),
    (
        "12 0",
        &[("slashes", "09 17 08 04 0c 08 @1 14 @2 14 10 0c 00")],
    ),
    ("12 0", &[("slashes", "14 04 00 0c 00")]),
    ("12 1", &[("slashes", "14 08 08 0c 00 08 0c 00")]),
    ("12 1", &[("slashes", "14 08 10 0c 00 14 0c 00")]),
    ("12 0", &[("slashes", "14 04 04 08 00")]),
    ("12 0", &[("slashes", "14 04 04 10 00")]),
    ("12 1", &[("slashes", "14 08 04 0c 00 08 08 00")]),
    ("12 0", &[("slashes", "14 04 04 0c 0c @1 04 @2 04 @1 04")]),
    ("12 1", &[("slashes", "14 08 04 0c 00 08 0c 04 @9 04")]),
    ("12 0", &[("slashes", "14 04 04 0c 04 @1 00")]),
];

/// What is wrong without params.
pub static PARAMLESS: [Case; 3] = [
    ("5 0", &[("roles", "01 @1 04 01 00 00")]),
    ("6 0", &[("eras", BOTH_ERAS)]),
    (
        "10 0",
        &[
            ("waiting", SNAPSHOT),
            ("members", "04 00"),
            ("edges", "08 00 00 78 04 00 50"),
        ],
    ),
];
