ghost use Rattle.std.specs.Prelude.{◌≡◌};
ghost use Rattle.jeldroft_args.specs.believed.Readings.{finding_format_of, format_of, table_format_of};

/// The form in which a table or a suite is written.
#[derive(Debug, Drop, Clone, Copy, PartialEq, Eq)]
pub enum Format {
    /// A table with tabs between its cells.
    Tsv,
    /// A table of comma-separated values (RFC 4180).
    Csv,
    /// An array of objects (RFC 8259).
    Json,
    /// A table of Markdown, in GitHub's form.
    Markdown,
    /// Words.
    Text,
    /// A page.
    Html,
}

impl Format {
    // What a value says of a table.
    pub(crate) fn of_table(text: &str) -> Option<Format>
        ensures { result ≡ table_format_of text.now }
    {
        if text == "tsv" {
            Some(Format::Tsv)
        } else if text == "csv" {
            Some(Format::Csv)
        } else if text == "json" {
            Some(Format::Json)
        } else if text == "markdown" {
            Some(Format::Markdown)
        } else {
            None
        }
    }

    // What a value says of a suite that is shown.
    pub(crate) fn of(text: &str) -> Option<Format>
        ensures { result ≡ format_of text.now }
    {
        if text == "text" {
            Some(Format::Text)
        } else if text == "html" {
            Some(Format::Html)
        } else {
            Format::of_table(text)
        }
    }
}

/// The form in which findings are written.
#[derive(Debug, Drop, Clone, Copy, PartialEq, Eq)]
pub enum FindingFormat {
    /// A line for each.
    Text,
    /// An array of objects.
    Json,
}

impl FindingFormat {
    // What a value says.
    pub(crate) fn of(text: &str) -> Option<FindingFormat>
        ensures { result ≡ finding_format_of text.now }
    {
        if text == "text" {
            Some(FindingFormat::Text)
        } else if text == "json" {
            Some(FindingFormat::Json)
        } else {
            None
        }
    }
}
