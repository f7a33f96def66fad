/// How many bytes a script has at most.
pub const SCRIPT_LIMIT: usize = 100_000_000;
