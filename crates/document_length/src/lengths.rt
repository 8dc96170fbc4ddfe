/// How many bytes the text of an operation has at most, where the length of documents is to be known.
pub const MAX_TEXT_LENGTH: u64 = 16_777_216;

/// How many bytes a document has at most.
pub const MAX_DOCUMENT_LENGTH: u64 = 4_294_967_296;
