//! What the checker answers.

/// The first thing in which a header differs.
#[derive(Clone, Copy, Debug, PartialEq, Eq)]
pub enum HeaderField {
    /// The line is no header.
    Kind,
    /// The version is another.
    Version,
    /// The protocol has another name.
    Protocol,
    /// The protocol has another number of agents.
    Agents,
}

/// What is wrong with a certificate. Lines are numbered from 1, goals, rows and unknowns from 0.
#[derive(Clone, Copy, Debug, PartialEq, Eq)]
pub enum Rejection {
    /// The line is no line of a certificate.
    BadLine { line: u64 },
    /// The line has more bytes than a line may have.
    LineTooLong { line: u64 },
    /// The first line is not the protocol's header.
    HeaderDiffers { field: HeaderField },
    /// The line is a header, or refutes another goal than the next.
    GoalOrder { line: u64 },
    /// The closing line comes before this goal is taken.
    Missing { goal: u64 },
    /// A further line comes after the last goal is taken, or after the closing line.
    Extra { line: u64 },
    /// The closing line has another number of goals.
    ClosingDiffers { line: u64 },
    /// The file ends before the closing line.
    NotClosed,
    /// There are more rows than multipliers, or fewer: of the goal, or behind the choices of its cover line; or the goal passed
    /// fewer choices than that line says.
    Length { goal: u64 },
    /// A multiplier has a sign that its row does not take.
    Sign { goal: u64, row: usize },
    /// The weighted sum of an unknown is above 0. Behind the choices of a cover line the unknowns are over the atoms there.
    Sum { goal: u64, unknown: usize },
    /// No Above row has a multiplier above 0.
    NoStrict { goal: u64 },
}

/// What the checker says of a file.
#[derive(Clone, Copy, Debug, PartialEq, Eq)]
pub enum CertAnswer {
    /// It is a certificate, for so many goals.
    Accepted { goals: u64 },
    /// It is none.
    Rejected(Rejection),
}

/// Why the checker says nothing of a file.
#[derive(Clone, Copy, Debug, PartialEq, Eq)]
pub enum CertFault {
    /// A read failed: the shelf's count of faults rose.
    ReadFault,
    /// The line that is read goes past the bytes that a file may have.
    TooLong,
    /// A further goal would be the 1,000,001st, one that a cover line takes included.
    GoalLimit,
    /// After so many goals a number of the rows does not fit.
    FormOverflow { goal: u64 },
    /// A number of the sum of an unknown does not fit, the unknowns being those of `Rejection::Sum`.
    Overflow { goal: u64, unknown: usize },
    /// Memory ran out.
    Memory,
}

/// Why the checker stops before the end of a file.
#[derive(Clone, Copy, Debug, PartialEq, Eq)]
pub(crate) enum Stop {
    /// The file is no certificate.
    Rejected(Rejection),
    /// Nothing can be said of it.
    Failed(CertFault),
}
