ghost use Rattle.std.specs.Prelude.{◌≡◌, List, ℕ, ◌+◌, ◌*◌, ◌^◌, ◌<◌, ◌≤◌, ◌++◌, ◌∷◌, [], length};
ghost use Rattle.std.specs.Char.{len_utf8};
ghost use Rattle.lf_token.specs.Places.{IsAt};
ghost use Rattle.lf_token.specs.Spelling.{width};

/// A place in a text: the bytes before it, its line and its column.
#[derive(Clone, Copy, Debug, PartialEq, Eq)]
pub struct Place {
    pub at: usize,
    pub line: usize,
    pub column: usize,
}

/// The place behind a character that stands at a place.
fn past_one(place: Place, c: char) -> Place
    requires at { place.at + 4 < 2 ^ 64 }
    requires line { place.line + 1 < 2 ^ 64 }
    requires column { place.column + 1 < 2 ^ 64 }
    ensures place { (before : List ℕ) → IsAt before place → IsAt (before ++ c ∷ []) result }
    ensures at { result.at ≡ place.at + len_utf8 c }
    ensures near { result.at ≤ place.at + 4 }
    ensures line { result.line ≤ place.line + 1 }
    ensures column { result.column ≤ place.column + 1 }
{
    let at = place.at + c.len_utf8();
    if c == '\n' {
        Place {
            at,
            line: place.line + 1,
            column: 0,
        }
    } else {
        Place {
            at,
            line: place.line,
            column: place.column + 1,
        }
    }
}

/// The place behind these characters, which stand at a place.
pub fn past(place: Place, cs: &[char]) -> Place
    requires at { place.at + 4 * length cs.now < 2 ^ 64 }
    requires line { place.line + length cs.now < 2 ^ 64 }
    requires column { place.column + length cs.now < 2 ^ 64 }
    ensures place { (before : List ℕ) → IsAt before place → IsAt (before ++ cs.now) result }
    ensures at { result.at ≡ place.at + width cs.now }
{
    let mut end = place;
    'characters: for c in cs {
        end = past_one(end, *c);
    }
    end
}
