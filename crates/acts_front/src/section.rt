ghost use Rattle.std.specs.Prelude.{◌≡◌};
ghost use Rattle.acts_front.specs.believed.Lines.{begun, headed, place_of};

/// The section that a line stands in (ACTS guide).
#[derive(Drop, Clone, Copy)]
pub(crate) enum Section {
    /// Before the first header.
    Outside,
    /// Under `[System]`.
    System,
    /// Under `[Parameter]`.
    Parameters,
    /// Under `[Relation]`.
    Relations,
    /// Under `[Constraint]`.
    Constraints,
}

// The section of a header.
fn headed(text: &[u8]) -> Option<Section>
    ensures { result ≡ headed text.now }
{
    if text.eq_ignore_ascii_case(b"[System]") {
        Some(Section::System)
    } else if text.eq_ignore_ascii_case(b"[Parameter]") {
        Some(Section::Parameters)
    } else if text.eq_ignore_ascii_case(b"[Relation]") {
        Some(Section::Relations)
    } else if text.eq_ignore_ascii_case(b"[Constraint]") {
        Some(Section::Constraints)
    } else {
        None
    }
}

impl Section {
    // Its place among the sections of a file.
    fn place(self) -> u8
        ensures { result ≡ place_of self }
    {
        match self {
            Section::Outside => 0,
            Section::System => 1,
            Section::Parameters => 2,
            Section::Relations => 3,
            Section::Constraints => 4,
        }
    }

    /// The section that a text begins behind lines of this one; `None` where it is no header in its place.
    pub(crate) fn begun(self, text: &[u8]) -> Option<Section>
        ensures { result ≡ begun self text.now }
    {
        let next = headed(text)?;
        if self.place() < next.place() {
            Some(next)
        } else {
            None
        }
    }
}
