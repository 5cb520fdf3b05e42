//! Why a file can't be opened.

/// Why a file can't be opened, where the system says.
#[derive(Clone, Copy, Debug, PartialEq, Eq)]
pub enum FileReason {
    /// There is no such file or folder.
    Missing,
    /// It may not be opened.
    Denied,
    /// It is a folder.
    Folder,
    /// A part of its path is no folder.
    NoFolder,
    /// Its name is too long.
    LongName,
    /// A file with this name is there already.
    Exists,
    /// Memory was refused.
    NoMemory,
    /// Another reason, or none that is known.
    Other,
}

impl FileReason {
    /// The reason in words.
    pub fn words(self) -> &'static str {
        match self {
            FileReason::Missing => "there is no such file",
            FileReason::Denied => "permission is denied",
            FileReason::Folder => "it is a folder",
            FileReason::NoFolder => "a part of its path is no folder",
            FileReason::LongName => "its name is too long",
            FileReason::Exists => "a file with this name is there already",
            FileReason::NoMemory => "there is no memory",
            FileReason::Other => "the system refuses it",
        }
    }
}
