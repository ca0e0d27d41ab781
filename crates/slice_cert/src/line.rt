//! What the lines of a certificate say.
use slice_num::Word;
use sqlite_items::Items;

/// A line of a certificate.
#[derive(Debug, Drop)]
pub enum Line {
    /// The first line, as `{"agents":2,"certificate":1,"protocol":"cc"}`.
    Header {
        /// The version of certificates.
        version: u32,
        /// The name of the protocol.
        protocol: Word,
        /// How many agents it has.
        agents: u32,
    },
    /// The line of a goal, as `{"goal":0,"multipliers":["1","0","0","1"]}`.
    Refutation {
        /// The goal's number, from 0.
        goal: u64,
        /// A multiplier for each row of the goal, in the order of the rows.
        multipliers: Items<i128>,
    },
    /// The line of a goal and of all later ones with the same first passed choices, as
    /// `{"cover":1,"goal":0,"multipliers":["1","0","0","1"]}`. Only certificates of version 2 have such lines.
    Cover {
        /// The number of that goal, from 0.
        goal: u64,
        /// How many choices were passed.
        passed: u32,
        /// A multiplier for each row behind these choices, in the order of the rows.
        multipliers: Items<i128>,
    },
    /// The last line, as `{"closing":"envy-free","goals":6}`.
    Closing {
        /// How many goals there are.
        goals: u64,
    },
}
