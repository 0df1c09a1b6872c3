//! Expanded texts.

ghost use Rattle.std.specs.Prelude.{◌≡◌, ◌==◌, ◌≤◌, length, count_by, take};
ghost use Rattle.sl_preproc.specs.Expanded.{seen, place_at, line_index};

use crate::places::Place;

/// An expanded text: its bytes, the names of the files that give its lines, the main file's first, and the place of
/// each of its lines. Each line ends with a line feed.
#[derive(Debug, Drop)]
pub struct Expanded {
    pub text: Vec<u8>,
    pub files: Vec<String>,
    pub lines: Vec<Place>,
}

/// How many line feeds stand in front of the byte.
fn line_index(text: &[u8], byte: usize) -> usize
    requires { byte ≤ length text.now }
    ensures { result ≡ line_index text.now byte }
{
    let (front, _) = text.split_at(byte);
    front.iter().filter(|b| **b == b'\n').count()
}

impl Expanded {
    /// The place of the line that the byte of this index stands on. The end of the text has the place of the last
    /// line, and in an empty text the place is line 0 of file 0.
    #[tactic(auto, unfolding(crate::specs::Expanded::place_at))]
    pub fn place_of(&self, byte: usize) -> Place
        requires { byte ≤ length self.now.text.items }
        ensures { result ≡ place_at (seen self.now) byte }
    {
        let line = line_index(self.text.as_slice(), byte);
        let lines = self.lines.as_slice();
        let last = lines.len().saturating_sub(1);
        match lines.get(line.min(last)) {
            Some(place) => *place,
            None => Place { file: 0, line: 0 },
        }
    }
}
