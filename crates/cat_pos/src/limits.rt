// What sources, inputs and numbered lists are limited to.
ghost use Rattle.std.specs.Prelude.{◌≡◌};
ghost use Rattle.cat_pos.specs.Limits.{most_file_bytes, most_files, most_input_bytes, most_source_bytes};

/// The bytes of one source file: 4 MiB.
pub const MOST_FILE_BYTES: usize = 4 * 1024 * 1024;

/// The source files of a program, the main file among them.
pub const MOST_FILES: usize = 64;

/// The bytes of all source files of a program together: 16 MiB.
pub const MOST_SOURCE_BYTES: usize = 16 * 1024 * 1024;

/// The bytes of an input: 64 MiB.
pub const MOST_INPUT_BYTES: usize = 64 * 1024 * 1024;

/// The line and the column at which a piece may begin that is read as tokens.
pub const LAST_LINE: u32 = 8 * 1024 * 1024;

/// A column is less: 64 Mi.
pub const COLUMNS_BOUND: u32 = 64 * 1024 * 1024;

/// A list that a `u32` numbers has fewer entries.
pub const ENTRIES_BOUND: u64 = 1 << 32;

/// The limits by which code counts are those of the definitions.
pub fn limits_are_as_stated()
    ensures file_bytes { MOST_FILE_BYTES ≡ most_file_bytes }
    ensures files { MOST_FILES ≡ most_files }
    ensures source_bytes { MOST_SOURCE_BYTES ≡ most_source_bytes }
    ensures input_bytes { MOST_INPUT_BYTES ≡ most_input_bytes }
{}
