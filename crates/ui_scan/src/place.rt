//! Places in a file.

ghost use Rattle.std.specs.Prelude.{◌≡◌, ◌≤◌, ◌<◌, ◌+◌, ◌^◌, length};
ghost use Rattle.ui_scan.specs.Scan as spec;

/// An offset, and its line and column, both from 1.
#[derive(Clone, Copy)]
pub struct Place {
    pub at: u32,
    pub line: u32,
    pub col: u32,
}

/// The start of a file.
pub const ORIGIN: Place = Place {
    at: 0,
    line: 1,
    col: 1,
};

impl Place {
    // The place behind one more byte.
    fn past(self, b: u8) -> Place
        requires at { self.at + 1 < 2 ^ 32 }
        requires line { self.line + 1 < 2 ^ 32 }
        requires col { self.col + 1 < 2 ^ 32 }
        ensures { result ≡ spec.past self b }
    {
        if b == b'\n' {
            Place {
                at: self.at + 1,
                line: self.line + 1,
                col: 1,
            }
        } else {
            Place {
                at: self.at + 1,
                line: self.line,
                col: self.col + 1,
            }
        }
    }

    /// The place behind these bytes.
    #[tactic(auto, unfolding(crate::specs::Scan::place_after))]
    pub fn after(self, bytes: &[u8]) -> Place
        requires at { self.at + length bytes.now < 2 ^ 32 }
        requires line { self.line + length bytes.now < 2 ^ 32 }
        requires col { self.col + length bytes.now < 2 ^ 32 }
        ensures place { result ≡ spec.place_after self bytes.now }
        ensures at { result.at ≡ self.at + length bytes.now }
        ensures line { result.line ≤ self.line + length bytes.now }
        ensures col { result.col ≤ self.col + length bytes.now }
    {
        let mut place = self;
        for b in bytes {
            place = place.past(*b);
        }
        place
    }
}
