//! The names of files.

/// The names of files, each None where no such file is named.
#[derive(Clone, Copy, Debug)]
pub struct FileNames<'a> {
    /// The file of the schema: after `--schema` on a command line.
    pub schema: Option<&'a str>,
    /// The file of the policies: after `--policies`.
    pub policies: Option<&'a str>,
    /// The file of the links: after `--links`.
    pub links: Option<&'a str>,
    /// The file of the entities: after `--entities`.
    pub entities: Option<&'a str>,
}
