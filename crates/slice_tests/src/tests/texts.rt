// The files of the shelf, line by line, and what is written of them.

pub(super) const HALF: &[&str] = &[
    "protocol half agents 2 {\n",
    "  cut 1 cake at 1/2 as l, r;\n",
    "  give l to 1;\n",
    "  give r to 2;\n",
    "}\n",
];

// Two agents who like all of the cake alike, and what the half comes to on their tastes.
const UNIFORM: &[&str] = &["[{\"ends\":[1],\"heights\":[1]},{\"ends\":[1],\"heights\":[1]}]"];

pub(super) const HALF_LINE: &str =
    "{\"envy\":[],\"left\":[],\"outcome\":\"done\",\"queries\":[{\"agent\":1,\"amount\":\"1/2\",\"answer\":\"1/2\",\"kind\":\"cut\"}],\"shares\":[[[\"0\",\"1/2\"]],[[\"1/2\",\"1\"]]],\"values\":[[\"1/2\",\"1/2\"],[\"1/2\",\"1/2\"]]}\n";

// One cuts, the other chooses; the first goal; a certificate; and what `verify` writes.
const CC: &[&str] = &[
    "protocol cc agents 2 { cut 1 cake at 1/2 as l, r; if value(2, l) >= value(2, r) { give l to 2; give r to 1; } else { give r to 2; give l to 1; } }",
];

pub(super) const CC_GOAL: &str =
    "{\"goal\":0,\"outcome\":{\"query\":0,\"side\":\"low\"},\"rows\":[{\"coefs\":[\"1\",\"0\",\"0\"],\"kind\":\"above\"},{\"coefs\":[\"-1\",\"1\",\"0\"],\"kind\":\"zero\"},{\"coefs\":[\"-1\",\"0\",\"1\"],\"kind\":\"zero\"},{\"coefs\":[\"-1\",\"0\",\"0\"],\"kind\":\"above\"}],\"trace\":[\"low\"]}\n";

const CC_CERT: &[&str] = &[
    "{\"agents\":2,\"certificate\":1,\"protocol\":\"cc\"}\n",
    "{\"goal\":0,\"multipliers\":[\"1\",\"0\",\"0\",\"1\"]}\n",
    "{\"goal\":1,\"multipliers\":[\"1\",\"2\",\"0\",\"1\"]}\n",
    "{\"goal\":2,\"multipliers\":[\"0\",\"1\",\"0\",\"-1\",\"0\",\"1\"]}\n",
    "{\"goal\":3,\"multipliers\":[\"0\",\"0\",\"0\",\"0\",\"1\",\"1\"]}\n",
    "{\"goal\":4,\"multipliers\":[\"0\",\"-1\",\"0\",\"1\",\"0\",\"1\"]}\n",
    "{\"goal\":5,\"multipliers\":[\"0\",\"0\",\"0\",\"0\",\"1\",\"1\"]}\n",
    "{\"closing\":\"envy-free\",\"goals\":6}\n",
];

pub(super) const CC_LINES: &[&str] = &[
    "{\"agents\":2,\"certificate\":2,\"protocol\":\"cc\"}\n",
    "{\"goal\":0,\"multipliers\":[\"0\",\"0\",\"0\",\"1\"]}\n",
    "{\"goal\":1,\"multipliers\":[\"0\",\"1\",\"0\",\"1\"]}\n",
    "{\"goal\":2,\"multipliers\":[\"0\",\"1\",\"0\",\"-1\",\"0\",\"1\"]}\n",
    "{\"goal\":3,\"multipliers\":[\"0\",\"0\",\"0\",\"0\",\"1\",\"1\"]}\n",
    "{\"goal\":4,\"multipliers\":[\"0\",\"-1\",\"0\",\"1\",\"0\",\"1\"]}\n",
    "{\"goal\":5,\"multipliers\":[\"0\",\"0\",\"0\",\"0\",\"1\",\"1\"]}\n",
    "{\"closing\":\"envy-free\",\"goals\":6}\n",
];

// Goals 0 and 1 are behind the test's first arm, into which no run goes; a certificate; and what `upgrade` writes.
const Z: &[&str] = &["protocol z agents 2 { if 0 >= 1 { give cake to 1; } else { } }"];

const Z_CERT: &[&str] = &[
    "{\"agents\":2,\"certificate\":1,\"protocol\":\"z\"}\n",
    "{\"goal\":0,\"multipliers\":[\"1\",\"0\",\"0\",\"1\",\"0\"]}\n",
    "{\"goal\":1,\"multipliers\":[\"1\",\"0\",\"0\",\"1\",\"0\"]}\n",
    "{\"goal\":2,\"multipliers\":[\"0\",\"0\",\"0\",\"0\",\"1\"]}\n",
    "{\"goal\":3,\"multipliers\":[\"0\",\"0\",\"0\",\"0\",\"1\"]}\n",
    "{\"closing\":\"envy-free\",\"goals\":4}\n",
];

pub(super) const Z_LINES: &[&str] = &[
    "{\"agents\":2,\"certificate\":2,\"protocol\":\"z\"}\n",
    "{\"cover\":1,\"goal\":0,\"multipliers\":[\"1\",\"0\",\"0\",\"1\"]}\n",
    "{\"goal\":2,\"multipliers\":[\"0\",\"0\",\"0\",\"0\",\"1\"]}\n",
    "{\"goal\":3,\"multipliers\":[\"0\",\"0\",\"0\",\"0\",\"1\"]}\n",
    "{\"closing\":\"envy-free\",\"goals\":4}\n",
];

pub(super) const FILES: &[(&str, &[&str])] = &[
    ("half.slice", HALF),
    ("v.json", UNIFORM),
    ("cc.slice", CC),
    ("cc.cert", CC_CERT),
    ("z.slice", Z),
    ("z.cert", Z_CERT),
];
