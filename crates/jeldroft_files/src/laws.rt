ghost use Rattle.jeldroft_files.specs.ReadBack.{CommasReadAsTabs};

/// A table whose cells commas part has the same rows as the table with tabs that is read in its place: each in the line
/// that it begins in, and its cells without spaces at their ends, in which a tab or the end of a line became a control
/// character.
pub fn commas_read_as_tabs()
    ensures { CommasReadAsTabs }
{}
