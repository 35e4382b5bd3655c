use value_text::Text;

/// What `sequence` is asked for.
#[derive(Drop)]
pub struct Sequence {
    /// The file of events.
    pub events: Text,
    /// How many events a sequence has, 2 or 3.
    pub length: u32,
    /// The report that is checked; else orders are generated.
    pub report: Option<Text>,
    /// The file of the orders; else standard output.
    pub output: Option<Text>,
}
