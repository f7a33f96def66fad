/// How many bytes a line of a script has at most, without its line feed.
pub const LINE_LIMIT: usize = 100_000;
