/// The longest file of a configuration, in bytes.
pub const LONGEST_FILE: usize = 65_536;
