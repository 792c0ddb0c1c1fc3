//! The tag of a subset's name.

ghost use Rattle.std.specs.Prelude.{◌≡◌, IsTrue, MatchOption};
ghost use Rattle.std.specs.List.{list_all};
ghost use Rattle.pdf_text.specs.SubsetName.{IsTag, is_capital};

/// The tag before a subset's name: six capitals (ISO 32000-1, 9.6.4).
#[derive(Clone, Copy, PartialEq, Eq, Debug)]
pub struct SubsetTag {
    letters: [u8; 6],
    ghost are_capitals: { IsTrue (list_all is_capital letters) },
}

/// Whether a byte is a capital letter of ASCII.
fn is_capital(b: u8) -> bool
    ensures { result ≡ is_capital b }
{
    65 <= b && b <= 90
}

impl SubsetTag {
    /// None but for six capitals.
    #[tactic(auto, using(crate::proofs::Tags::are_capitals))]
    pub fn new(letters: &[u8; 6]) -> Option<Self>
        ensures { MatchOption result (¬ (IsTag letters.now)) (λ tag. tag.letters ≡ letters.now) }
    {
        if letters.iter().all(|b| is_capital(*b)) {
            return Some(SubsetTag { letters: *letters });
        }
        None
    }

    /// The six capitals.
    #[tactic(auto, using(crate::proofs::Tags::is_tag))]
    pub fn letters(&self) -> [u8; 6]
        ensures letters { result ≡ self.now.letters }
        ensures are { IsTag result }
    {
        self.letters
    }
}
