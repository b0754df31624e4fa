//! Where in a policy a part is.

/// The side of the scope that a part belongs to, or the conditions.
#[derive(Clone, Copy, PartialEq, Eq)]
pub enum Section {
    Principal,
    Action,
    Resource,
    Conditions,
}

/// The section to which a path leads from the whole condition: principal, action and resource come first.
pub fn section_of(path: &[usize]) -> Section {
    match path {
        [0, ..] => Section::Principal,
        [1, 0, ..] => Section::Action,
        [1, 1, 0, ..] => Section::Resource,
        _ => Section::Conditions,
    }
}

/// The variable of a side of the scope, in words.
pub fn name_of(section: Section) -> &'static str {
    match section {
        Section::Principal => "the principal",
        Section::Action => "the action",
        Section::Resource => "the resource",
        Section::Conditions => "it",
    }
}
