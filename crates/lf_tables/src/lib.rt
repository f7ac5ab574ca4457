//! Tables of rows, each a key and its value.
#![tactic(auto)]

ghost use Rattle.std.specs.Prelude.{◌≡◌, ◌↔◌, ◌≤◌, drop, nat_eq, IsTrue, Some, Contains};
ghost use Rattle.std.specs.List.{starts_with};
ghost use Rattle.lf_tables.specs.Rows.{value_of, longest_of, longer, keys_rise, rows_of};

use std::marker::Model;

/// A table: rows whose keys are distinct and in the order of their bytes.
#[derive(Drop)]
pub struct Table<'a, V: Copy> {
    rows: &'a [(&'a str, V)],
}

impl<'a, V: Copy> Model for Table<'a, V> {
    ghost use Rattle.std.specs.Prelude.{List, IsTrue};
    ghost use Rattle.lf_tables.specs.Rows.{Row, rows_of, keys_rise};

    ghost Value = { List (Row V) };

    ghost view = { λ t. rows_of t.rows.now };

    ghost invariant = { λ t. IsTrue (keys_rise (rows_of t.rows.now)) };
}

impl<'a, V: Copy> Table<'a, V> {
    /// The table of these rows. Takes no memory.
    pub fn new(rows: &'a [(&'a str, V)]) -> Table<'a, V>
        requires { IsTrue (keys_rise (rows_of rows.now)) }
        ensures { result ≡ rows_of rows.now }
    {
        Table { rows }
    }

    /// The value of the row of this key; `None` exactly where the key is no written row.
    /// Takes no memory, and looks at as many rows as their number has binary digits.
    pub fn find(&self, key: &str) -> Option<V>
        ensures value { result ≡ value_of key.now self.now }
        ensures written { (v : V) → (result ≡ Some v) ↔ Contains self.now (key.now, v) }
    {
        match self.rows.binary_search_by_key(&key, |row| row.0) {
            Ok(at) => Some(self.rows[at].1),
            Err(_) => None,
        }
    }

    /// The length in bytes and the value of the longest key that stands in `text` at the byte `at`;
    /// `None` exactly where none does. Takes no memory.
    pub fn longest(&self, text: &str, at: usize) -> Option<(usize, V)>
        ensures { result ≡ longest_of self.now (drop at text.now) }
    {
        let rest = text.as_bytes().get(at..).unwrap_or(&[]);
        let mut best = None;
        'rows: for row in self.rows {
            let key = row.0.as_bytes();
            if stands(rest, key) {
                best = longer(best, (key.len(), row.1));
            }
        }
        best
    }
}

/// Whether the text begins with the key. Most keys of a table already differ in their first byte.
fn stands(text: &[u8], key: &[u8]) -> bool
    ensures { result ≡ starts_with nat_eq text.now key.now }
{
    match key {
        [] => true,
        [first, more @ ..] => match text {
            [] => false,
            [next, rest @ ..] => first == next && rest.starts_with(more),
        },
    }
}

/// The longer of the keys with their values, the first where they are as long.
fn longer<V: Copy>(best: Option<(usize, V)>, next: (usize, V)) -> Option<(usize, V)>
    ensures { result ≡ longer best (Some next) }
{
    match best {
        Some(most) if most.0 >= next.0 => Some(most),
        _ => Some(next),
    }
}

/// The array of the rows of a table, each a literal key, an arrow and its value.
#[macro_export]
macro_rules! rows {
    ($($key:literal => $value:expr),* $(,)?) => {
        [$(($key, $value)),*]
    };
}

#[cfg(test)]
mod tests {
    use super::Table;

    #[test]
    fn finds_written_rows_alone(rt: HostRuntime) {
        let rows = rows! {
            "" => 9_u8,
            "a" => 1,
            "ab" => 2,
            "abc" => 3,
            "b" => 4,
            "é" => 5,
            "→" => 6,
        };
        let table = Table::new(&rows);
        for (key, value) in [
            ("", 9),
            ("a", 1),
            ("ab", 2),
            ("abc", 3),
            ("b", 4),
            ("é", 5),
            ("→", 6),
        ] {
            assert_eq!(rt; table.find(key), Some(value), "at {key}");
        }
        for key in ["A", "aa", "abcd", "c", "bc", "è", "→→"] {
            assert_eq!(rt; table.find(key), None, "at {key}");
        }
        let none: [(&str, u8); 0] = rows! {};
        assert_eq!(rt; Table::new(&none).find("a"), None);
    }

    #[test]
    fn takes_the_longest_key(rt: HostRuntime) {
        let rows = rows! {
            "-" => 'm',
            "->" => 'r',
            ":" => 'c',
            ":=" => 'a',
            "<-" => 'l',
            "<->" => 'i',
            "→" => 'r',
        };
        let table = Table::new(&rows);
        for (text, at, wanted) in [
            ("-", 0, Some((1, 'm'))),
            ("->", 0, Some((2, 'r'))),
            ("--", 0, Some((1, 'm'))),
            ("<-", 0, Some((2, 'l'))),
            ("<->", 0, Some((3, 'i'))),
            ("<", 0, None),
            ("x:=y", 1, Some((2, 'a'))),
            ("x: =y", 1, Some((1, 'c'))),
            ("a → b", 2, Some((3, 'r'))),
            ("a → b", 3, None),
            ("a", 1, None),
            ("a", 7, None),
        ] {
            assert_eq!(rt; table.longest(text, at), wanted, "at {at} of {text}");
        }
    }
}
