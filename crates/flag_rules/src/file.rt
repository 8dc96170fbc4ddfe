/// How many bytes an input file may have: a domain, an instance or a program.
pub const MAX_FILE_BYTES: usize = 1_048_576;
