//! Why parts of JSON data are refused.

/// Why a part of JSON data is refused. The texts may hold any character of the data: make them safe before a terminal shows them.
#[derive(Drop)]
pub struct DataFault {
    /// The number of the refusal, 501 to 511.
    pub number: u16,
    /// Where the part is, for example `attrs.tags[2]`, `context.mfa` or `parents[0]`. Empty for the whole.
    pub path: String,
    /// What is wrong, for example `a String is wanted, and 3 is a number`.
    pub says: String,
    /// What to do, where one thing is likely.
    pub hint: Option<String>,
}

/// An entry of a list of entities that is refused.
#[derive(Drop)]
pub struct RefusedEntry {
    /// Its position in the list, from 0.
    pub position: usize,
    /// The uid that it writes, as a policy writes it, for example `Shop::Order::"o198"`. None where it writes no uid.
    pub uid: Option<String>,
    /// Why it is refused.
    pub fault: DataFault,
}

/// An item of a list of links that is not a link.
#[derive(Drop)]
pub struct RefusedLink {
    /// Its position in the list, from 0.
    pub position: usize,
    /// Why it is not a link.
    pub fault: DataFault,
}

/// An entry of a circle of parents.
#[derive(Drop)]
pub struct CircleEntry {
    /// Its position in the list, from 0.
    pub position: usize,
    /// The uid that it writes, as a policy writes it.
    pub uid: String,
}
