//! What a refusal says, in the words that are right for the request that was refused.

use mx_hier::Refusal;
use mx_name::Pathname;
use mx_request::Request;

/// Why this request was refused.
pub(crate) fn refusal_words(refusal: Refusal, request: &Request) -> &'static str {
    match refusal {
        Refusal::BadPath => "the pathname leads above the root, or is longer than 168 characters",
        Refusal::NoEntry => "the directory has no such entry",
        Refusal::NoInfo => "a caller who may not list the directory is told nothing about it",
        Refusal::NotADir => "what was reached is no directory",
        Refusal::LinkLoop => "more than ten links on the way",
        Refusal::IncorrectAccess => access_words(request),
        Refusal::NameDup => name_words(request),
        Refusal::NotASeg => "what was reached is no segment",
        Refusal::DirNotEmpty => "the directory has entries",
        Refusal::DirFull => "the directory has 256 entries",
        Refusal::BadLength =>
            "the length is not 1 to 1024 words, or a gate or definition lies beyond it",
        Refusal::BadBrackets => bracket_words(request),
        Refusal::InvalidMode => "letters of the other kind of entry, or m without s",
        Refusal::AclFull => list_words(
            request,
            "the access list has 64 entries",
            "the initial access list has 63 entries",
        ),
        Refusal::NoAclEntry => list_words(
            request,
            "the access list has no such entry",
            "the initial access list has no such entry",
        ),
        Refusal::NoPages => "too few pages are left",
        Refusal::KstFull => "too few segment numbers are left",
        Refusal::UnknownSegno => "the number stands for no segment that was made known",
        Refusal::NotLinkage => "this is no link word of a linkage section",
        Refusal::SegmentNotFound => "the search rules find no segment",
        Refusal::NotObject => "the segment found is no object",
        Refusal::NoDefinition => "the object found does not define the symbol",
        Refusal::NoProcess => "there is no such process",
        Refusal::MailFull => "64 messages wait for it already",
        Refusal::Ended => "the process has ended",
        Refusal::BadClass => "the class does not dominate the one that the segment has",
    }
}

// What is wrong with an access list, in the words for the one of an entry or for an initial one.
fn list_words(request: &Request, own: &'static str, initial: &'static str) -> &'static str {
    match request {
        Request::SetIacl { .. } | Request::DelIacl { .. } => initial,
        _ => own,
    }
}

// What the caller may not do: at the root that is what nobody may.
fn access_words(request: &Request) -> &'static str {
    match request {
        Request::Rename { path, .. } | Request::Delete { path } => removal_words(path),
        _ => "the caller's access in this ring does not allow it",
    }
}

// The same of what renames or deletes. A pathname that goes up alone may lead to the root: that hangs on the working directory.
fn removal_words(path: &Pathname) -> &'static str {
    if is_root(path) {
        "the root is neither renamed nor deleted"
    } else if path.bytes().ends_with(b"<") {
        "the caller's access in this ring does not allow it, or this is the root"
    } else {
        "the caller's access in this ring does not allow it"
    }
}

// What has the name already.
fn name_words(request: &Request) -> &'static str {
    match request {
        Request::Initiate { .. } => "the reference name stands for another segment in this ring",
        Request::CreateDir { path, .. }
        | Request::CreateSeg { path, .. }
        | Request::CreateObject { path, .. }
        | Request::CreateLink { path, .. } => making_words(path),
        Request::Rename { path, name } if is_last(path.bytes(), name.bytes()) =>
            "this is the name that it has",
        _ => "the name stands there already",
    }
}

// The same where an entry is made. A pathname that goes up alone may lead to the root.
fn making_words(path: &Pathname) -> &'static str {
    if is_root(path) {
        "this is the root"
    } else if path.bytes().ends_with(b"<") {
        "the name stands there already, or this is the root"
    } else {
        "the name stands there already"
    }
}

// What is wrong with brackets: new ones alone where an entry is made, and those that an entry has where they are set.
fn bracket_words(request: &Request) -> &'static str {
    match request {
        Request::SetBrackets { .. } | Request::SetDirBrackets { .. } =>
            "the brackets are not in order, or the first one, old or new, is below the caller's ring",
        _ => "the brackets are not in order, or the first one is below the caller's ring",
    }
}

// Whether the pathname is written as the root's path.
fn is_root(path: &Pathname) -> bool {
    matches!(path.bytes(), [b'>'])
}

// Whether the last name of a pathname is this one.
fn is_last(path: &[u8], name: &[u8]) -> bool {
    match path.strip_suffix(name) {
        Some([]) => true,
        Some([.., mark]) => matches!(mark, b'>' | b'<'),
        None => false,
    }
}
